use slint_base::{Fault, Memory, Refusal, Rule, Span};
use std::test::Fail;

#[test]
fn refusals_name_lines_and_columns(rt: HostRuntime) -> Result<(), Fail> {
    for (bytes, start, end, want) in [
        ("", 0, 0, "1:1-1:1"),
        ("ab\ncd", 0, 1, "1:1-1:2"),
        ("ab\ncd", 2, 3, "1:3-2:1"),
        ("ab\ncd", 4, 5, "2:2-2:3"),
        ("ab\ncd", 5, 5, "2:3-2:3"),
        ("ab\ncd", 9, 9, "2:3-2:3"),
        ("\u{e9}x\n", 2, 3, "1:3-1:4"),
        ("\r\nx", 1, 2, "1:2-2:1"),
        ("\n\n", 1, 2, "2:1-3:1"),
        ("\t a", 2, 3, "1:3-1:4"),
    ] {
        let span = Span {
            file: 3,
            start,
            end,
        };
        let rule = Rule::UnknownName;
        let fault = Fault { rule, span };
        let alloc = rt.alloc();
        let refusal = Refusal::of_fault(alloc, "a b/c.slint", bytes.as_bytes(), fault)?;
        let line = refusal.line(alloc)?;
        let want = format!(in alloc; "refused 34 a b/c.slint {want}")?;
        assert_eq!(rt; line.as_str(), want.as_str(), "{start} {bytes}");
    }
    Ok(())
}
