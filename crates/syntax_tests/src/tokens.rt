use slint_base::{End, Fault, Span, Text};
use slint_lexer::{Token, TokenKind, lex, lexed_fit, one_answer, write_token, written_again};
use slint_literals::{
    Look, char_len, front_char, number_length, numbers_read, print_colour, print_number,
    print_string, printed_numbers_read, printed_text_reads, read_colour, read_number,
    read_numbers_ready, runs_are_texts, text_look, text_of, text_run,
};
use std::alloc::{AllocError, Global};
use std::test::Fail;

/// A token in words: what it is, and where it lies.
fn shown(alloc: Global, token: &Token) -> Result<String, AllocError> {
    let Span { file, start, end } = token.span;
    match &token.kind {
        TokenKind::Id(name) => format!(in alloc; "{}@{file}:{start}-{end} ", name.as_str()),
        TokenKind::Number(n) => format!(in alloc; "{n:?}@{file}:{start}-{end} "),
        TokenKind::Colour(c) => format!(in alloc; "#{c:08x}@{file}:{start}-{end} "),
        TokenKind::Str(t) => format!(in alloc; "str({})@{file}:{start}-{end} ", t.as_str()),
        TokenKind::Head(t) => format!(in alloc; "head({})@{file}:{start}-{end} ", t.as_str()),
        TokenKind::Mid(t) => format!(in alloc; "mid({})@{file}:{start}-{end} ", t.as_str()),
        TokenKind::Tail(t) => format!(in alloc; "tail({})@{file}:{start}-{end} ", t.as_str()),
        TokenKind::Symbol(s) => format!(in alloc; "{s:?}@{file}:{start}-{end} "),
    }
}

/// How lexing a file ends: its tokens in words, or the fault's rule and place.
fn lexed(alloc: Global, file: u32, bytes: &[u8]) -> Result<String, Fail> {
    let mut all = String::new(alloc);
    if bytes.len() >= 1 << 32 {
        return Ok(all);
    }
    match lex(alloc, file, bytes) {
        Ok(tokens) => {
            for token in &tokens {
                all.push_str(&shown(alloc, token)?)?;
            }
            Ok(all)
        }
        Err(End::Fault(Fault { rule, span })) => Ok(format!(in alloc;
            "{rule:?}@{}:{}-{}",
            span.file, span.start, span.end
        )?),
        Err(End::Memory) => Ok(format!(in alloc; "no memory")?),
    }
}

#[test]
fn names_symbols_and_separators(rt: HostRuntime) -> Result<(), Fail> {
    for (text, want) in [
        ("", ""),
        (" \t\n\u{c}\r ", ""),
        (
            "a\tb\nc\u{c}d\re f",
            "a@3:0-1 b@3:2-3 c@3:4-5 d@3:6-7 e@3:8-9 f@3:10-11 ",
        ),
        ("\u{feff}a", "a@3:3-4 "),
        ("a\u{feff}", "BadToken@3:1-4"),
        ("a\u{b}b", "BadToken@3:1-2"),
        ("a\u{a0}b", "BadToken@3:1-3"),
        ("a-b_c _d--1_ e9", "a-b-c@3:0-5 _d--1-@3:6-12 e9@3:13-15 "),
        ("\u{e9}\u{e9}-a\u{301}", "\u{e9}\u{e9}-a\u{301}@3:0-8 "),
        ("-a", "Minus@3:0-1 a@3:1-2 "),
        ("a.b", "a@3:0-1 Dot@3:1-2 b@3:2-3 "),
        (
            "<=> := => ->",
            "TwoWay@3:0-3 ColonEqual@3:4-6 FatArrow@3:7-9 ThinArrow@3:10-12 ",
        ),
        (
            "== != <= >=",
            "EqualEqual@3:0-2 NotEqual@3:3-5 LessEqual@3:6-8 GreaterEqual@3:9-11 ",
        ),
        (
            "+= -= *= /=",
            "PlusEqual@3:0-2 MinusEqual@3:3-5 StarEqual@3:6-8 SlashEqual@3:9-11 ",
        ),
        (
            "&& || {}()",
            "AndAnd@3:0-2 OrOr@3:3-5 OpenBrace@3:6-7 CloseBrace@3:7-8 OpenParen@3:8-9 CloseParen@3:9-10 ",
        ),
        (
            "[]<> =:",
            "OpenBracket@3:0-1 CloseBracket@3:1-2 Less@3:2-3 Greater@3:3-4 Equal@3:5-6 Colon@3:6-7 ",
        ),
        (
            ";,.!?+-",
            "Semicolon@3:0-1 Comma@3:1-2 Dot@3:2-3 Bang@3:3-4 Question@3:4-5 Plus@3:5-6 Minus@3:6-7 ",
        ),
        ("* / @", "Star@3:0-1 Slash@3:2-3 At@3:4-5 "),
        (
            "<=><=<a",
            "TwoWay@3:0-3 LessEqual@3:3-5 Less@3:5-6 a@3:6-7 ",
        ),
        ("}", "CloseBrace@3:0-1 "),
        ("a<=>1.5px", "a@3:0-1 TwoWay@3:1-4 Length(1500)@3:4-9 "),
        ("$", "BadToken@3:0-1"),
        ("a \u{20ac}", "BadToken@3:2-5"),
        ("&", "BadToken@3:0-1"),
        ("\\", "BadToken@3:0-1"),
    ] {
        assert_eq!(rt;
            lexed(rt.alloc(), 3, text.as_bytes())?.as_str(),
            want,
            "at {text}"
        );
    }
    Ok(())
}

#[test]
fn comments(rt: HostRuntime) -> Result<(), Fail> {
    for (text, want) in [
        ("a//b\nc", "a@0:0-1 c@0:5-6 "),
        ("//a\rb\nc", "c@0:6-7 "),
        ("a//b", "a@0:0-1 "),
        ("a/*b*/c", "a@0:0-1 c@0:6-7 "),
        ("/*/*a*/*/b", "b@0:9-10 "),
        ("/*//**/*/b", "b@0:9-10 "),
        ("/*\"*/b", "b@0:5-6 "),
        ("/***/b", "b@0:5-6 "),
        ("/*/b", "BadToken@0:0-2"),
        ("/*//*/", "BadToken@0:0-2"),
        ("+/*", "BadToken@0:1-3"),
        ("a/b", "a@0:0-1 Slash@0:1-2 b@0:2-3 "),
    ] {
        assert_eq!(rt;
            lexed(rt.alloc(), 0, text.as_bytes())?.as_str(),
            want,
            "at {text}"
        );
    }
    Ok(())
}

#[test]
fn strings(rt: HostRuntime) -> Result<(), Fail> {
    for (text, want) in [
        ("\"\"", "str()@0:0-2 "),
        ("\"a\nb\"", "str(a\nb)@0:0-5 "),
        (
            "\"a\\\"b\\\\c\\nd\\u{e9}\\u{1F600}\"",
            "str(a\"b\\c\nd\u{e9}\u{1f600})@0:0-27 ",
        ),
        (
            "\"a\\{b{}}c\\{d}e\"",
            "head(a)@0:0-4 b@0:4-5 OpenBrace@0:5-6 CloseBrace@0:6-7 mid(c)@0:7-11 d@0:11-12 tail(e)@0:12-15 ",
        ),
        (
            "\"\\{/* } */1}\"",
            "head()@0:0-3 Int(1)@0:10-11 tail()@0:11-13 ",
        ),
        ("\"a\\{\"b\\{1}}\"}", "BadToken@0:12-13"),
        ("\"a\\{b", "head(a)@0:0-4 b@0:4-5 "),
        ("\"a\\{b}c", "BadToken@0:5-6"),
        ("\"ab", "BadToken@0:0-1"),
        ("\"ab\\q", "BadEscape@0:3-5"),
        ("\"ab\\q\"", "BadEscape@0:3-5"),
        ("\"ab\\\u{e9}\"", "BadEscape@0:3-6"),
        ("\"ab\\", "BadEscape@0:3-4"),
        ("\"\\u41\"", "BadEscape@0:1-3"),
        ("\"\\u{}\"", "BadEscape@0:1-3"),
        ("\"\\u{41\"", "BadEscape@0:1-3"),
        ("\"\\u{d800}\"", "BadEscape@0:1-3"),
        ("\"\\u{110000}\"", "BadEscape@0:1-3"),
        ("\"\\u{0000041}\"", "BadEscape@0:1-3"),
        ("\"\\u{000041}\"", "str(A)@0:0-12 "),
    ] {
        assert_eq!(rt;
            lexed(rt.alloc(), 0, text.as_bytes())?.as_str(),
            want,
            "at {text}"
        );
    }
    Ok(())
}

#[test]
fn bytes_that_begin_no_character(rt: HostRuntime) -> Result<(), Fail> {
    for (before, byte, behind, want) in [
        ("", 0xffu8, "", "NotUtf8@0:0-1"),
        ("a ", 0x80, "b", "NotUtf8@0:2-3"),
        ("a", 0xc3, "", "NotUtf8@0:1-2"),
        ("a", 0xe2, "\u{80}", "NotUtf8@0:1-2"),
        ("\"a", 0xff, "\"", "NotUtf8@0:2-3"),
        ("\"a\\", 0xff, "\"", "BadEscape@0:2-3"),
        ("/*a", 0xff, "*/", "NotUtf8@0:3-4"),
        ("//a", 0xff, "\n", "NotUtf8@0:3-4"),
        ("\"a\\q", 0xff, "", "BadEscape@0:2-4"),
    ] {
        let mut bytes = Vec::new(rt.alloc());
        bytes.extend_from_slice(before.as_bytes())?;
        bytes.push(byte)?;
        bytes.extend_from_slice(behind.as_bytes())?;
        assert_eq!(rt; lexed(rt.alloc(), 0, &bytes)?.as_str(), want, "at {before}");
    }
    Ok(())
}

#[test]
fn colours(rt: HostRuntime) -> Result<(), Fail> {
    for (text, want) in [
        ("#f08", "#ff0088ff@0:0-4 "),
        ("#f084", "#ff008844@0:0-5 "),
        ("#12AB34", "#12ab34ff@0:0-7 "),
        ("#12ab34cD", "#12ab34cd@0:0-9 "),
        ("#", "BadToken@0:0-1"),
        ("#12", "BadToken@0:0-3"),
        ("#12345", "BadToken@0:0-6"),
        ("#1234567", "BadToken@0:0-8"),
        ("#123456789", "BadToken@0:0-10"),
        ("a #12g", "BadToken@0:2-6"),
        ("#f08-", "#ff0088ff@0:0-4 Minus@0:4-5 "),
    ] {
        assert_eq!(rt;
            lexed(rt.alloc(), 0, text.as_bytes())?.as_str(),
            want,
            "at {text}"
        );
    }
    for (digits, want) in [
        ("f08", Some(0xff00_88ff)),
        ("000", Some(0x0000_00ff)),
        ("12345678", Some(0x1234_5678)),
        ("+12", None),
        ("", None),
    ] {
        assert_eq!(rt; read_colour(digits.as_bytes()), want, "at {digits}");
    }
    Ok(())
}

#[test]
fn numbers(rt: HostRuntime) -> Result<(), Fail> {
    for (text, want) in [
        ("0", "Some(Zero)"),
        ("000", "Some(Zero)"),
        ("0.0", "Some(Float(0))"),
        ("0px", "Some(Length(0))"),
        ("007", "Some(Int(7))"),
        ("2147483647", "Some(Int(2147483647))"),
        ("2147483648", "Some(Float(2147483648000000))"),
        ("1.5", "Some(Float(1500000))"),
        ("50%", "Some(Percent(50000000))"),
        ("1px", "Some(Length(1000))"),
        ("1phx", "Some(Length(1000))"),
        ("1in", "Some(Length(96000))"),
        ("1pt", "Some(Length(1333))"),
        ("1cm", "Some(Length(37795))"),
        ("1mm", "Some(Length(3780))"),
        ("2.54cm", "Some(Length(96000))"),
        ("1ms", "Some(Duration(1))"),
        ("1s", "Some(Duration(1000))"),
        ("1deg", "Some(Angle(1000))"),
        ("1grad", "Some(Angle(900))"),
        ("1turn", "Some(Angle(360000))"),
        ("0.0025px", "Some(Length(3))"),
        ("0.0024999px", "Some(Length(2))"),
        ("2.5ms", "Some(Duration(3))"),
        ("0.0000005", "Some(Float(1))"),
        ("0.00000049", "Some(Float(0))"),
        ("9000000000", "Some(Float(9000000000000000))"),
        ("9000000000.0000004", "Some(Float(9000000000000000))"),
        ("9000000000.0000005", "None"),
        ("9000000000000px", "Some(Length(9000000000000000))"),
        ("9000000000000.001px", "None"),
        ("9000000000001px", "None"),
        ("000000000000000000000000000001", "Some(Int(1))"),
        ("0000000000000000000000000000001", "None"),
        ("1.00000000000000000000000000000", "Some(Float(1000000))"),
        ("1.000000000000000000000000000000", "None"),
        ("99999999999999999999cm", "None"),
        ("12qq", "None"),
        ("1PX", "None"),
        ("1.", "None"),
        (".5", "None"),
        ("1%%", "None"),
        ("-1", "None"),
        ("", "None"),
    ] {
        let read = format!(in rt.alloc(); "{:?}", read_number(text.as_bytes()))?;
        assert_eq!(rt; read.as_str(), want, "at {text}");
    }
    for (text, want) in [
        ("12qq", "BadNumber@0:0-4"),
        (
            "a 1.5.2",
            "a@0:0-1 Float(1500000)@0:2-5 Dot@0:5-6 Int(2)@0:6-7 ",
        ),
        ("1.", "Int(1)@0:0-1 Dot@0:1-2 "),
        ("1.px", "Int(1)@0:0-1 Dot@0:1-2 px@0:2-4 "),
        ("1%2", "Percent(1000000)@0:0-2 Int(2)@0:2-3 "),
        ("1px2", "Length(1000)@0:0-3 Int(2)@0:3-4 "),
        ("1-2", "Int(1)@0:0-1 Minus@0:1-2 Int(2)@0:2-3 "),
    ] {
        assert_eq!(rt;
            lexed(rt.alloc(), 0, text.as_bytes())?.as_str(),
            want,
            "at {text}"
        );
    }
    assert_eq!(rt; number_length(b"12.5pxy+"), 7);
    Ok(())
}

#[test]
fn insides_of_strings(rt: HostRuntime) -> Result<(), Fail> {
    for (text, want) in [
        ("a", Look::Plain(1)),
        ("\u{e9}", Look::Plain(2)),
        ("\\\"", Look::Escape('"', 2)),
        ("\\u{e9}x", Look::Escape('\u{e9}', 6)),
        ("\"", Look::Quote),
        ("\\{", Look::Hole),
        ("\\\u{e9}", Look::BadEscape(3)),
        ("", Look::End),
    ] {
        assert_eq!(rt; text_look(text.as_bytes()), want, "at {text}");
    }
    let run = text_run(rt.alloc(), b"ab\\nc\"d")?;
    assert_eq!(rt; run.text.as_str(), "ab\nc");
    assert_eq!(rt; run.length, 5);
    assert_eq!(rt; char_len("\u{20ac}".as_bytes()), 3);
    assert_eq!(rt; front_char("\u{20ac}a".as_bytes()), Some('\u{20ac}'));
    assert_eq!(rt; text_of("\u{20ac}".as_bytes()), "\u{20ac}");
    let mut out = Vec::new(rt.alloc());
    print_string(
        &mut out,
        &Text::from_str(rt.alloc(), "a\"\\\n\u{1}\u{1f}\u{7f}\u{80}\u{e9}")?,
    )?;
    assert_eq!(rt;
        out.as_slice(),
        "\"a\\\"\\\\\\n\\u{1}\\u{1f}\\u{7f}\u{80}\u{e9}\"".as_bytes()
    );
    Ok(())
}

#[test]
fn tokens_are_written_and_read_again(rt: HostRuntime) -> Result<(), Fail> {
    for (text, want) in [
        ("a_b<=>1.5px", "a-b <=> 1.500px "),
        ("\"x\\n\\{0}y\\{ 7 }\"", "\"x\\n\\{ 0 }y\\{ 7 }\" "),
        (
            "2.0 50% 3s 90deg #f08",
            "2.000000 50.000000% 3000ms 90.000deg #ff0088ff ",
        ),
        (
            "9000000000 9000000000000px",
            "9000000000.000000 9000000000000.000px ",
        ),
        ("if(a){b}", "if ( a ) { b } "),
    ] {
        let mut out = Vec::new(rt.alloc());
        if text.len() < 1 << 32 {
            for token in &lex(rt.alloc(), 0, text.as_bytes())? {
                write_token(rt.alloc(), &mut out, &token.kind)?;
            }
        }
        assert_eq!(rt; out.as_slice(), want.as_bytes(), "at {text}");
    }
    Ok(())
}

/// A source of so many copies of a text.
fn copies(alloc: Global, text: &str, count: u32) -> Result<Vec<u8>, AllocError> {
    let mut source = Vec::new(alloc);
    for _ in 0..count {
        source.extend_from_slice(text.as_bytes())?;
    }
    Ok(source)
}

#[test]
fn long_files(rt: HostRuntime) -> Result<(), Fail> {
    for (before, piece, count, behind, want) in [
        ("", "a ", 131_072u32, "", 131_072),
        ("", " ", 262_144, "", 0),
        ("\"", "\\n\u{e9}", 65_535, "\"", 1),
        ("", "/*", 65_536, "", 0),
        ("", "\"\\{", 87_381, "", 87_381),
        ("a", "b", 262_143, "", 1),
        ("//", "\u{20ac}", 87_380, "", 0),
    ] {
        let mut source = Vec::new(rt.alloc());
        source.extend_from_slice(before.as_bytes())?;
        source.extend_from_slice(copies(rt.alloc(), piece, count)?.as_slice())?;
        source.extend_from_slice(behind.as_bytes())?;
        let mut found = 0;
        if source.len() < 1 << 32 {
            match lex(rt.alloc(), 0, &source) {
                Ok(tokens) => found = tokens.len(),
                Err(_) => {}
            }
        }
        assert_eq!(rt; found, want, "at {piece}");
    }
    Ok(())
}

#[test]
fn laws(_rt: HostRuntime) {
    one_answer();
    lexed_fit();
    written_again();
    numbers_read();
    printed_text_reads();
    printed_numbers_read();
    read_numbers_ready();
    runs_are_texts();
}
