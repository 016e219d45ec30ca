use crate::{BadLine, Command, Path, read_int, read_line};
use slint_base::{End, Memory};
use std::alloc::Global;
use std::test::Fail;

/// A path with `/` in front of each step.
fn show_path(shown: &mut String, path: &Path) -> Result<(), Memory> {
    for step in path.as_slice() {
        shown.push('/')?;
        shown.push_str(step.name.as_str())?;
        if let Some(row) = step.row {
            write!(shown, "#{row}")?;
        }
    }
    Ok(())
}

/// What a line is read as: `-` where it is passed over, `!` where it is unread.
fn shown_line(alloc: Global, line: &[u8]) -> Result<String, Memory> {
    let mut shown = String::new(alloc);
    match read_line(alloc, line) {
        Ok(None) => shown.push_str("-")?,
        Ok(Some(Command::Get(path))) => {
            shown.push_str("get ")?;
            show_path(&mut shown, &path)?;
        }
        Ok(Some(Command::Set(path, value))) => {
            shown.push_str("set ")?;
            show_path(&mut shown, &path)?;
            shown.push('=')?;
            shown.push_str(value.as_str())?;
        }
        Err(End::Fault(BadLine::TooLong)) => shown.push_str("long")?,
        Err(End::Fault(BadLine::Unread)) => shown.push_str("!")?,
        Err(End::Memory) => return Err(Memory),
    }
    Ok(shown)
}

#[test]
fn a_line_is_read_by_its_words(rt: HostRuntime) -> Result<(), Fail> {
    let lines: [(&str, &str); 36] = [
        ("get root.a", "get /root/a"),
        ("  get\troot.a \r", "get /root/a"),
        ("get root", "get /root"),
        ("get", "!"),
        ("get root.a x", "!"),
        ("Get root.a", "!"),
        ("getroot.a", "!"),
        ("get\u{a0}root.a", "!"),
        ("get root.a\r\r", "!"),
        ("set root.a", "!"),
        ("set", "!"),
        ("set root.a  -5 ", "set /root/a=-5"),
        ("set root.a 5 6", "set /root/a=5 6"),
        ("set root. 5", "!"),
        ("", "-"),
        ("\r", "-"),
        (" \t ", "-"),
        ("// é", "-"),
        (" // x", "!"),
        ("/ get root.a", "!"),
        ("get root.é", "get /root/é"),
        ("get _x.a-b_c", "get /_x/a-b-c"),
        ("get root.", "!"),
        ("get .a", "!"),
        ("get root..a", "!"),
        ("get root.1a", "!"),
        ("get root.-a", "!"),
        ("get root[0].a", "!"),
        ("get root.a[]", "!"),
        ("get root.a[0]", "get /root/a#0"),
        ("get root.a[0].b", "get /root/a#0/b"),
        ("get root.a[007]", "get /root/a#7"),
        ("get root.a[123456789]", "get /root/a#123456789"),
        ("get root.a[1234567890]", "!"),
        ("get root.a[+1]", "!"),
        ("get root.a[0]b", "!"),
    ];
    for (line, want) in lines {
        let read = shown_line(rt.alloc(), line.as_bytes())?;
        assert_eq!(rt; read.as_str(), want, "{line}");
    }
    Ok(())
}

#[test]
fn bytes_that_are_no_text_are_read_only_as_a_comment(rt: HostRuntime) -> Result<(), Fail> {
    let comment = shown_line(rt.alloc(), b"// \xff")?;
    assert_eq!(rt; comment.as_str(), "-");
    let command = shown_line(rt.alloc(), b"get root.\xff")?;
    assert_eq!(rt; command.as_str(), "!");
    Ok(())
}

#[test]
fn a_line_has_4096_bytes_at_most(rt: HostRuntime) -> Result<(), Fail> {
    for (blanks, end, want) in [
        (4096, "", "-"),
        (4096, "\r", "-"),
        (4097, "", "long"),
        (4097, "\r", "long"),
    ] {
        let mut line = vec![in rt.alloc(); b' '; blanks]?;
        line.extend_from_slice(end.as_bytes())?;
        let read = shown_line(rt.alloc(), line.as_slice())?;
        assert_eq!(rt; read.as_str(), want);
    }
    Ok(())
}

#[test]
fn an_int_is_read_within_its_ends(rt: HostRuntime) {
    let texts: [(&str, Option<i32>); 18] = [
        ("0", Some(0)),
        ("-0", Some(0)),
        ("007", Some(7)),
        ("-12", Some(-12)),
        ("2147483647", Some(2147483647)),
        ("2147483648", None),
        ("-2147483648", Some(-2147483648)),
        ("-2147483649", None),
        (
            "0000000000000000000000000000000000000000000000000000000000005",
            Some(5),
        ),
        ("99999999999999999999999999", None),
        ("", None),
        ("-", None),
        ("--5", None),
        ("- 5", None),
        ("+5", None),
        ("-+5", None),
        ("5px", None),
        ("٣", None),
    ];
    for (text, value) in texts {
        assert_eq!(rt; read_int(text), value, "{text}");
    }
}
