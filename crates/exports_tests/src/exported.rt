use crate::sources::read;
use file_exports::exported_names;
use slint_base::{End, Fault};
use std::alloc::Global;
use std::collections::HashSet;
use std::test::Fail;

/// Sources, each after the names that it exports by itself, with a comma behind each.
fn rows() -> &'static str {
    r#"|
|component A { } struct S { } enum E { a } global G { }
A,|export component A { }
S,|export struct S { }
E,|export enum E { a }
G,|export global G { }
A,S,E,G,|export component A { } export struct S { } export enum E { a } export global G { }
A,|component A { } component B { } export { A }
A,B,|component A { } component B { } export { A, B }
B,|component A { } export { A as B }
A,C,|component A { } component B { } export { A, B as C }
A,B,|component A { } component B { } export { A as B, B as A }
A,B,|component A { } export { A } export { A as B }
A,|export component A { } export { A }
A,|export component A { } export struct A { }
A,|export { A } component A { }
A,|export { A }
|import { A } from "a.slint";
|import { A as B } from "a.slint"; component A { }
A,|import { A } from "a.slint"; export { A }
|export * from "a.slint";
B,|export * from "a.slint"; export component B { }
a-b,|export component a_b { }
a-b,|component A { } export { A as a_b }"#
}

/// The names that a source exports by itself.
fn names_of(alloc: Global, source: &str) -> Result<HashSet<String>, End<Fault>> {
    let file = read(alloc, source)?;
    Ok(exported_names(alloc, file.items.as_slice())?)
}

/// How many of the names are in the set, where all of them are.
fn found(names: &HashSet<String>, wanted: &str) -> Option<usize> {
    let mut count: usize = 0;
    for name in wanted.split_terminator(',') {
        if !names.contains(name) {
            return None;
        }
        count = count.saturating_add(1);
    }
    Some(count)
}

#[test]
fn a_file_exports_what_it_marks_and_lists(rt: HostRuntime) -> Result<(), Fail> {
    for row in rows().split('\n') {
        let (wanted, source) = row.split_once('|').unwrap_or((row, ""));
        let names = names_of(rt.alloc(), source)?;
        assert_eq!(rt; found(&names, wanted), Some(names.len()), "at {row}");
    }
    Ok(())
}
