use slint_base::{Memory, Place};
use source_lines::{line_starts, place_by};

/// Texts, where their lines start, and bytes of them with their line and column; the byte behind the last one is the end.
static TEXTS: [(&str, &[u32], &[(u32, u32, u32)]); 10] = [
    ("", &[0], &[(0, 1, 1)]),
    ("a", &[0], &[(0, 1, 1), (1, 1, 2)]),
    ("a\n", &[0, 2], &[(0, 1, 1), (1, 1, 2), (2, 2, 1)]),
    ("\n", &[0, 1], &[(0, 1, 1), (1, 2, 1)]),
    ("\n\n", &[0, 1, 2], &[(0, 1, 1), (1, 2, 1), (2, 3, 1)]),
    ("\na", &[0, 1], &[(0, 1, 1), (1, 2, 1), (2, 2, 2)]),
    (
        "ab\ncd",
        &[0, 3],
        &[(2, 1, 3), (3, 2, 1), (4, 2, 2), (5, 2, 3)],
    ),
    (
        "ab\ncd\n",
        &[0, 3, 6],
        &[(2, 1, 3), (3, 2, 1), (5, 2, 3), (6, 3, 1)],
    ),
    (
        "ab\r\ncd\r\n",
        &[0, 4, 8],
        &[(2, 1, 3), (3, 1, 4), (4, 2, 1), (7, 2, 4), (8, 3, 1)],
    ),
    (
        "\u{e4}\nb",
        &[0, 3],
        &[(1, 1, 2), (2, 1, 3), (3, 2, 1), (4, 2, 2)],
    ),
];

#[test]
fn bytes_have_their_places(rt: HostRuntime) -> Result<(), Memory> {
    for (text, lines, places) in TEXTS {
        assert!(rt; text.len() < 1_000);
        let starts = line_starts(rt.alloc(), text.as_bytes())?;
        assert!(rt; starts.len() < 1_000);
        assert_eq!(rt; starts.as_slice(), lines, "{text:?}");
        for (at, line, column) in places {
            let place = Place {
                line: *line,
                column: *column,
            };
            assert_eq!(rt; place_by(&starts, *at), place, "byte {at} of {text:?}");
        }
    }
    Ok(())
}

/// A column is told up to the greatest number that it can be.
#[test]
fn columns_stay_at_the_greatest(rt: HostRuntime) {
    for (at, column) in [(7, 8), (u32::MAX - 1, u32::MAX), (u32::MAX, u32::MAX)] {
        assert_eq!(rt; place_by(&[0], at), Place { line: 1, column }, "byte {at}");
    }
}
