use slint_base::{End, Memory};
use std::alloc::Global;
use std::test::Fail;
use text_measure::{BadTable, Size, TextTable, measure, read_table};

/// A text, the font size, the width in which it is wrapped, and its size.
static TEXTS: [(&str, i64, Option<i64>, i64, i64); 16] = [
    ("", 10_000, None, 0, 12_000),
    ("a", 10_000, None, 5_000, 12_000),
    ("abc", 16_000, None, 24_000, 19_200),
    ("abc\nde", 16_000, None, 24_000, 38_400),
    ("\n", 10_000, None, 0, 24_000),
    ("ab cd", 10_000, Some(25_000), 25_000, 12_000),
    ("ab cd", 10_000, Some(24_999), 25_000, 24_000),
    ("abcdefgh ij", 10_000, Some(20_000), 55_000, 24_000),
    ("ab  cd", 10_000, Some(15_000), 30_000, 24_000),
    ("   ", 10_000, Some(0), 15_000, 48_000),
    ("a b\nc d", 10_000, Some(-1), 15_000, 48_000),
    ("\u{e9}\u{6f22}", 10_000, None, 10_000, 12_000),
    ("ab", -5, None, 0, 0),
    ("abc", 1, None, 3, 1),
    (
        "abc",
        9_000_000_000_000_000,
        None,
        9_000_000_000_000_000,
        9_000_000_000_000_000,
    ),
    ("ab cd ef", 10_000, Some(30_000), 40_000, 24_000),
];

#[test]
fn texts_have_their_size(rt: HostRuntime) {
    let table = TextTable::plain(rt.alloc());
    for (text, font, wrap, width, height) in TEXTS {
        assert_eq!(rt;
            measure(&table, text, font, wrap),
            Size { width, height },
            "{text:?} at {font} in {wrap:?}"
        );
    }
}

/// The height of a line, the width of characters that aren't listed, and whether `i`, `\u{e9}` and `\u{6f22}` are, with the widths
/// 250, 333 and 1000; then a text, the font size, the width in which it is wrapped, and its size.
static MEASURED: [(u32, u32, bool, &str, i64, Option<i64>, i64, i64); 44] = [
    (
        1200,
        500,
        true,
        "long-wordhi\n",
        10_000,
        Some(0),
        52_500,
        24_000,
    ),
    (1000, 500, true, "", 1, Some(50_000), 0, 1),
    (1333, 777, false, "mmm  ", 16_000, Some(1), 62_160, 63_984),
    (
        1000,
        0,
        true,
        "i\n\u{6f22}\u{5b57}ihi i\n",
        1,
        Some(-3),
        1,
        4,
    ),
    (
        1000,
        500,
        true,
        "\u{e9}\nxxxxxxxxxxxxxxxxxxxx hi\nxxxxxxxxxxxxxxxxxxxxlong-word\nixxxxxxxxxxxxxxxxxxxx",
        1,
        Some(0),
        29,
        5,
    ),
    (
        1000,
        777,
        true,
        "\u{e9}  ",
        12_345,
        Some(9_000_000_000_000_000),
        23_295,
        12_345,
    ),
    (1200, 0, false, "  ", 1, Some(0), 0, 1),
    (1200, 0, true, "mmm ", 12_345, Some(30_000), 0, 14_814),
    (1333, 0, false, "", 12_345, Some(50_000), 0, 16_456),
    (
        0,
        500,
        true,
        "\u{6f22}\u{5b57} \u{6f22}\u{5b57} \u{6f22}\u{5b57}  ",
        10_000,
        Some(50_000),
        65_000,
        0,
    ),
    (
        0,
        777,
        true,
        "ii    i mmm ",
        10_000,
        Some(50_000),
        77_430,
        0,
    ),
    (
        1200,
        777,
        false,
        " \u{e9} long-word \u{e9}",
        9_000_000_000_000_000,
        None,
        9_000_000_000_000_000,
        9_000_000_000_000_000,
    ),
    (
        1200,
        500,
        true,
        "long-word  \nhi",
        12_345,
        Some(65_000),
        67_903,
        44_442,
    ),
    (
        1000,
        0,
        true,
        "\u{6f22}\u{5b57}  mmm  \u{e9} \u{e9}\nmmmxxxxxxxxxxxxxxxxxxxx\n",
        12_345,
        Some(1),
        20_567,
        74_070,
    ),
    (
        1333,
        500,
        false,
        "mmm  \u{6f22}\u{5b57}\n\u{e9}ilong-word\u{e9} ",
        1,
        Some(50_000),
        13,
        2,
    ),
    (
        1000,
        500,
        true,
        "\u{6f22}\u{5b57} long-word\nmmm\n\u{e9}mmm ",
        12_345,
        Some(9_000_000_000_000_000),
        80_248,
        37_035,
    ),
    (
        1333,
        777,
        true,
        "\u{6f22}\u{5b57}\n",
        9_000_000_000_000_000,
        Some(0),
        9_000_000_000_000_000,
        9_000_000_000_000_000,
    ),
    (
        1000,
        500,
        true,
        "\ni\ni  ",
        16_000,
        Some(50_000),
        20_000,
        48_000,
    ),
    (
        0,
        777,
        true,
        "mmmmmm i  i  hi\n",
        9_000_000_000_000_000,
        Some(1),
        9_000_000_000_000_000,
        0,
    ),
    (
        0,
        777,
        false,
        "\u{e9}\nmmm hi\ni  ",
        9_000_000_000_000_000,
        Some(-3),
        9_000_000_000_000_000,
        0,
    ),
    (
        1333,
        500,
        true,
        "\u{e9}  hi hi\u{e9}\u{6f22}\u{5b57}\nmmm long-word ",
        9_000_000_000_000_000,
        None,
        9_000_000_000_000_000,
        9_000_000_000_000_000,
    ),
    (1000, 0, false, "", 10_000, Some(65_000), 0, 10_000),
    (1000, 500, true, " ", 10_000, Some(0), 5000, 20_000),
    (
        1333,
        500,
        true,
        "\u{e9}\n\u{e9}  xxxxxxxxxxxxxxxxxxxx i",
        16_000,
        None,
        193_328,
        42_656,
    ),
    (
        1200,
        777,
        true,
        "mmm \u{6f22}\u{5b57} \u{6f22}\u{5b57}  ",
        12_345,
        Some(50_000),
        111_018,
        44_442,
    ),
    (
        1000,
        500,
        true,
        "\u{6f22}\u{5b57}\n\n",
        12_345,
        Some(0),
        18_518,
        37_035,
    ),
    (
        1000,
        0,
        true,
        "i long-wordmmm long-word   xxxxxxxxxxxxxxxxxxxxmmm ",
        10_000,
        Some(9_000_000_000_000_000),
        2500,
        10_000,
    ),
    (1200, 0, false, "i ", 1, Some(0), 0, 1),
    (
        1000,
        777,
        true,
        "mmmxxxxxxxxxxxxxxxxxxxxi ",
        10_000,
        Some(0),
        188_980,
        20_000,
    ),
    (1333, 777, true, "i", 16_000, Some(65_000), 4000, 21_328),
    (
        1000,
        0,
        true,
        "long-word   hi  i mmm",
        9_000_000_000_000_000,
        Some(50_000),
        4_500_000_000_000_000,
        9_000_000_000_000_000,
    ),
    (
        1000,
        777,
        true,
        "long-word ",
        16_000,
        Some(50_000),
        124_320,
        32_000,
    ),
    (
        1000,
        0,
        true,
        "  \u{e9}\u{e9}long-word xxxxxxxxxxxxxxxxxxxx\n",
        1,
        Some(9_000_000_000_000_000),
        0,
        2,
    ),
    (1333, 0, true, "\u{e9}\u{e9}\ni\n", 1, Some(0), 0, 3),
    (
        0,
        500,
        true,
        "xxxxxxxxxxxxxxxxxxxx \u{6f22}\u{5b57} \u{6f22}\u{5b57}",
        16_000,
        None,
        224_000,
        0,
    ),
    (
        0,
        500,
        true,
        "\u{e9} mmm\u{6f22}\u{5b57}\n  ",
        10_000,
        Some(65_000),
        38_330,
        0,
    ),
    (
        1000,
        0,
        true,
        "\u{6f22}\u{5b57}\n\u{e9}",
        1,
        Some(65_000),
        1,
        2,
    ),
    (
        1200,
        0,
        true,
        "\u{e9}\n\u{e9}long-word ",
        12_345,
        Some(0),
        4111,
        44_442,
    ),
    (
        0,
        500,
        true,
        "mmmhi  \u{6f22}\u{5b57} xxxxxxxxxxxxxxxxxxxx  ",
        -5,
        Some(9_000_000_000_000_000),
        0,
        0,
    ),
    (1000, 777, false, "mmm  ", 0, Some(30_000), 0, 0),
    (1000, 500, true, "", -5, Some(9_000_000_000_000_000), 0, 0),
    (
        0,
        500,
        true,
        "long-word  mmm hi xxxxxxxxxxxxxxxxxxxx \u{6f22}\u{5b57}\ni",
        0,
        Some(0),
        0,
        0,
    ),
    (
        1200,
        0,
        true,
        "mmm\nxxxxxxxxxxxxxxxxxxxx  xxxxxxxxxxxxxxxxxxxxxxxxxxxxxxxxxxxxxxxx xxxxxxxxxxxxxxxxxxxx  ",
        -5,
        None,
        0,
        0,
    ),
    (
        1000,
        777,
        false,
        "\u{6f22}\u{5b57} long-word long-wordmmm ",
        -5,
        Some(-3),
        0,
        0,
    ),
];

/// A table by its numbers.
fn table_of(
    alloc: Global,
    line: u32,
    default: u32,
    listed: bool,
) -> Result<TextTable, End<BadTable>> {
    let pairs = if listed {
        "U+0069 250\nU+00E9 333\nU+6F22 1000\n"
    } else {
        ""
    };
    let file = format!(in alloc; "texttable 1\nline {line}\ndefault {default}\n{pairs}")?;
    if file.len() >= 1000 {
        return Err(End::Memory);
    }
    read_table(alloc, file.as_bytes())
}

#[test]
fn texts_have_their_size_by_a_table(rt: HostRuntime) -> Result<(), Fail> {
    for (line, default, listed, text, font, wrap, width, height) in MEASURED {
        let table = table_of(rt.alloc(), line, default, listed)?;
        assert_eq!(rt;
            measure(&table, text, font, wrap),
            Size { width, height },
            "{text:?} at {font} in {wrap:?}"
        );
    }
    Ok(())
}

/// Files, with where the first line begins that doesn't fit; none where they read as the table of `i` and `\u{1f600}`.
static FILES: [(&str, Option<u32>); 30] = [
    (
        "texttable 1\nline 1200\ndefault 500\nU+0069 250\nU+D800 1",
        Some(45),
    ),
    (
        "texttable 2\nline 1200\ndefault 500\nU+0069 250\nU+1F600 1000",
        Some(0),
    ),
    (
        "texttable 1\nline 1200\ndefault 100001\nU+0069 250\nU+1F600 1000\n",
        Some(22),
    ),
    (
        "texttable 1\nline 1200\ndefault 500\nU+1F600 1000\nU+0069 250\n",
        Some(47),
    ),
    (
        "texttable 1\nline 1200\ndefault 500\nU+0069 250\nU+1F600 1000",
        None,
    ),
    (
        "texttable 1\nline 1200\ndefault 500\n\nU+0069 250\nU+1F600 1000",
        Some(34),
    ),
    (
        "texttable 1\nline 1200\ndefault 500\n\nU+0069 250\nU+1F600 1000\n",
        Some(34),
    ),
    (
        "texttable 1\nline 1200\ndefault 500\nU+0069 250\nU+1F600 1000\n",
        None,
    ),
    (
        "texttable 1\nline 1200\r\ndefault 500\nU+0069 250\nU+1F600 1000\n",
        Some(12),
    ),
    (
        "texttable 1\nline 1000000\ndefault 500\nU+0069 250\nU+1F600 1000\n",
        Some(12),
    ),
    (
        "texttable 1\nline 1200\ndefault 500\nU+69 250\nU+1F600 1000\n",
        Some(34),
    ),
    (
        "texttable 1\nline 1200\ndefault 500\nU+0069 250\nU+110000 1\n",
        Some(45),
    ),
    (
        "texttable 2\nline 1200\ndefault 500\nU+0069 250\nU+1F600 1000\n",
        Some(0),
    ),
    (
        "texttable 1\nline 1200\r\ndefault 500\nU+0069 250\nU+1F600 1000",
        Some(12),
    ),
    (
        "texttable 1\nline 1200\ndefault 500\nU+1F600 1000\nU+0069 250",
        Some(47),
    ),
    (
        "texttable 1\nline 1200\ndefault 500\nU+0069 250\nU+110000 1",
        Some(45),
    ),
    (
        "texttable 1\nline 1200\ndefault 500\nU+0069  250\nU+1F600 1000",
        Some(34),
    ),
    ("texttable 1\nline 1200\n", Some(22)),
    (
        "texttable 1\nline 1200\ndefault 500\nU+0069  250\nU+1F600 1000\n",
        Some(34),
    ),
    (
        "texttable 1\nline 1200\ndefault 500\nU+006a 3\nU+1F600 1000\n",
        Some(34),
    ),
    (
        "texttable 1\nline 1000000\ndefault 500\nU+0069 250\nU+1F600 1000",
        Some(12),
    ),
    (
        "texttable 1\nline 1200\ndefault 500\nU+006a 3\nU+1F600 1000",
        Some(34),
    ),
    (
        "texttable 1\nline 1200\ndefault 100001\nU+0069 250\nU+1F600 1000",
        Some(22),
    ),
    (
        "texttable 1\nline 1200\ndefault 500\nU+69 250\nU+1F600 1000",
        Some(34),
    ),
    (
        "texttable 1\nline 1200\ndefault 500\nU+0069 250\nU+D800 1\n",
        Some(45),
    ),
    ("texttable 1\nline 1200", Some(21)),
    ("", Some(0)),
    (
        "texttable 1\nline 1200\ndefault 500\nU+000069 000250\nU+1F600 1000",
        None,
    ),
    (
        "texttable 1\nline 1200\ndefault 500\nU+0069 250\nU+1F600 1000\n\n",
        Some(58),
    ),
    (
        "texttable 1\nline 1200\ndefault 500\nU+0069 250\nU+0069 250\n",
        Some(45),
    ),
];

#[test]
fn files_read_as_tables(rt: HostRuntime) -> Result<(), Memory> {
    for (file, wanted) in FILES {
        let bytes = file.as_bytes();
        assert!(rt; bytes.len() < 1000);
        match read_table(rt.alloc(), bytes) {
            Ok(table) => {
                assert_eq!(rt; wanted, None, "{file:?}");
                assert_eq!(rt; table.line(), 1200, "{file:?}");
                assert_eq!(rt; table.advance('?'), 500, "{file:?}");
                assert_eq!(rt; table.advance('i'), 250, "{file:?}");
                assert_eq!(rt; table.advance('\u{1f600}'), 1000, "{file:?}");
            }
            Err(End::Fault(bad)) => assert_eq!(rt; wanted, Some(bad.at), "{file:?}"),
            Err(End::Memory) => return Err(Memory),
        }
    }
    Ok(())
}

/// Fronts of files that are filled up with spaces to a length, and where they are faulted.
static LONG_FILES: [(&str, usize, u32); 4] = [
    ("texttable 1\nline 1200\n", 262_144, 22),
    ("texttable 1\nline 1200\n", 262_145, 262_144),
    ("texttable 1\nline 1200\ndefault 500\n", 300_000, 262_144),
    ("texttable 1\nline 1200\ndefault 5000000\n", 300_000, 22),
];

#[test]
fn long_files_are_no_tables(rt: HostRuntime) -> Result<(), Memory> {
    for (front, length, at) in LONG_FILES {
        let mut file = Vec::new(rt.alloc());
        file.extend_from_slice(front.as_bytes())?;
        for _ in front.len()..length {
            file.push(b' ')?;
        }
        assert!(rt; file.len() < 1_000_000);
        match read_table(rt.alloc(), &file) {
            Ok(_) => assert!(rt; false, "{front:?} is read"),
            Err(End::Fault(bad)) => assert_eq!(rt; bad.at, at, "{front:?}"),
            Err(End::Memory) => return Err(Memory),
        }
    }
    Ok(())
}
