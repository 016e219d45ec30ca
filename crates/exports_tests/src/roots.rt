use crate::sources::read;
use file_exports::root_place;
use slint_base::{End, Fault, Name};
use std::alloc::Global;
use std::test::Fail;

/// Sources, each after the place of its root among its items, from 0 on, or `none`, and the name that is asked for, or `-`.
fn rows() -> &'static str {
    r#"none - 
none - export struct S { }
none - export global G { } import { A } from "a.slint";
none - export { A }
0 - component A { }
1 - component A { } component B { }
2 - component A { } component B { } component A { }
0 - export component A { } component B { }
2 - export component A { } component B { } export component C { } component D { }
0 - component A { } component B { } export { A }
1 - component A { } component B { } export { A, B }
1 - component A { } component B { } export { B, A }
1 - export { A } component A { } component B { }
0 - component A { } component B { } export { A as B }
1 - component A { } component B { } export { A as B, B as A }
2 - component A { } export { A } export component B { } component C { }
2 - export component A { } component B { } component C { } export { C } component D { }
1 - component A { } component A { } component B { } export { A }
1 - component A { } component B { } struct S { } export { S }
1 - component A { } component B { } export struct S { } export global G { } export enum E { a }
1 - component A { } component B { } export * from "a.slint";
1 - import { C } from "c.slint"; component A { } export { C }
0 - component a-b { } component B { } export { a_b }
none A 
none A export struct A { }
none A export global A { }
none A import { A } from "a.slint"; component B { }
none B component A { } export { A as B }
0 A component A { } export component B { }
1 B component A { } component B { } export { A }
0 A component A { } component A { } component B { }
0 A component A { } export component A { }
1 A import { A } from "a.slint"; component A { }
0 a_b component a-b { } component B { }
0 a-b component a_b { } component B { }"#
}

/// The place of a source's root, in words.
fn root_of(alloc: Global, source: &str, named: &str) -> Result<String, End<Fault>> {
    let file = read(alloc, source)?;
    let items = file.items.as_slice();
    let place = if named == "-" {
        root_place(alloc, items, None)?
    } else {
        let name = Name::normal(alloc, named)?;
        root_place(alloc, items, Some(&name))?
    };
    match place {
        Some(place) => Ok(format!(in alloc; "{place}")?),
        None => Ok(String::from_str(alloc, "none")?),
    }
}

#[test]
fn the_root_is_the_last_exported_component_or_the_one_that_is_named(
    rt: HostRuntime,
) -> Result<(), Fail> {
    for row in rows().split('\n') {
        let (want, rest) = row.split_once(' ').unwrap_or((row, ""));
        let (named, source) = rest.split_once(' ').unwrap_or((rest, ""));
        let place = root_of(rt.alloc(), source, named)?;
        assert_eq!(rt; place.as_str(), want, "at {row}");
    }
    Ok(())
}
