use crate::{End, Fault, Name, Rule, Text, int_add, int_mul, int_sub};
use std::alloc::Global;

const LEAST: i32 = -2_147_483_648;

const MOST: i32 = 2_147_483_647;

/// The bytes of a text, pushed one by one.
fn bytes_of(alloc: Global, text: &str) -> Result<Vec<u8>, End<Fault>> {
    let mut bytes = Vec::new(alloc);
    for byte in text.as_bytes() {
        bytes.push(*byte)?;
    }
    Ok(bytes)
}

#[test]
fn ints_stop_at_their_ends(rt: HostRuntime) {
    for (a, b, sum, difference, product) in [
        (MOST, 1, MOST, 2_147_483_646, MOST),
        (LEAST, -1, LEAST, -2_147_483_647, MOST),
        (LEAST, 1, -2_147_483_647, LEAST, LEAST),
        (MOST, LEAST, -1, MOST, LEAST),
        (0, LEAST, LEAST, MOST, 0),
        (46_341, 46_341, 92_682, 0, MOST),
        (46_340, -46_341, -1, 92_681, -2_147_441_940),
        (65_536, -32_768, 32_768, 98_304, LEAST),
        (-7, 6, -1, -13, -42),
    ] {
        assert_eq!(rt; int_add(a, b), sum, "{a} + {b}");
        assert_eq!(rt; int_sub(a, b), difference, "{a} - {b}");
        assert_eq!(rt; int_mul(a, b), product, "{a} * {b}");
    }
}

#[test]
fn names_and_texts(rt: HostRuntime) -> Result<(), End<Fault>> {
    for (spelled, wanted) in [
        ("foo_bar", "foo-bar"),
        ("_a_b", "_a-b"),
        ("__", "_-"),
        ("\u{e9}_", "\u{e9}-"),
        ("", ""),
    ] {
        let name = Name::normal(rt.alloc(), spelled)?;
        assert_eq!(rt; name.copy()?.as_str(), wanted, "{spelled}");
        let text = Text::from_str(rt.alloc(), spelled)?;
        assert_eq!(rt; text.copy()?.as_str(), spelled);
        assert_eq!(rt;
            bytes_of(rt.alloc(), spelled)?.as_slice(),
            String::from_str(rt.alloc(), spelled)?.as_bytes()
        );
    }
    assert_eq!(rt; Rule::NotBuilt.number(), 90);
    Ok(())
}
