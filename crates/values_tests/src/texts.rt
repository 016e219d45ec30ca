use slint_base::{MOST_TEXT_BYTES, Memory, Name, Text};

/// A text of so many dashes with a character behind them.
fn dashes_then(alloc: std::alloc::Global, count: usize, last: char) -> Result<String, Memory> {
    let mut text = String::new(alloc);
    for _ in 0..count {
        text.push('-')?;
    }
    text.push(last)?;
    Ok(text)
}

#[test]
fn long_texts_are_cut(rt: HostRuntime) -> Result<(), Memory> {
    for (dashes, last, length) in [
        (MOST_TEXT_BYTES - 1, 'x', MOST_TEXT_BYTES),
        (MOST_TEXT_BYTES, 'x', MOST_TEXT_BYTES),
        (MOST_TEXT_BYTES - 1, '\u{e9}', MOST_TEXT_BYTES - 1),
        (MOST_TEXT_BYTES - 2, '\u{e9}', MOST_TEXT_BYTES),
        (2, '\u{20ac}', 5),
    ] {
        let whole = dashes_then(rt.alloc(), dashes, last)?;
        let cut = Text::cut(rt.alloc(), whole.as_str())?;
        assert_eq!(rt; cut.as_str().len(), length, "{dashes} dashes");
    }
    Ok(())
}

#[test]
fn names_are_ordered_by_bytes(rt: HostRuntime) -> Result<(), Memory> {
    for (first, second) in [
        ("", "a"),
        ("a", "b"),
        ("a", "ab"),
        ("Z", "a"),
        ("a-b", "a0"),
        ("z", "\u{e9}"),
    ] {
        let less = Name::normal(rt.alloc(), first)?;
        let more = Name::normal(rt.alloc(), second)?;
        assert!(rt; less < more, "{first} and {second}");
        assert!(rt; less == less.copy()?, "{first}");
        assert!(rt; less != more, "{first} and {second}");
    }
    Ok(())
}
