use crate::sources::read;
use slint_base::End;
use std::alloc::{AllocError, Global};
use std::test::Fail;

/// Sources with the rule that each breaks, before it, and the token that can't stand where it does, or the end, between `▸` and `◂`;
/// `ok` stands before a source that breaks none. `⟦3 a⟧` is short for `aaa`.
fn rows() -> &'static str {
    r#"10 ▸x◂ { }
10 ▸}◂
10 ▸;◂
10 ▸"a"◂
10 import ▸;◂
10 import ▸a◂;
10 import {▸;◂
10 import { ▸,◂ } from "a";
10 import { A ▸B◂ } from "a";
10 import { A,▸,◂ } from "a";
10 import { A as ▸,◂ } from "a";
10 import { A } ▸"a"◂;
10 import { A } from ▸;◂
10 import { A } from ▸b◂;
10 import ▸"a\{◂1}";
10 import "a" ▸import◂ "b";
10 import "a"; ▸;◂
10 export ▸;◂
10 export ▸import◂ "a";
10 export ▸export◂ component A { }
10 export { ▸{◂ }
10 export { A ▸;◂ }
10 export { A };▸;◂
10 export * ▸"a"◂;
10 export * from ▸a◂;
10 export * from "a" ▸}◂
10 component ▸{◂ }
10 component A ▸B◂ { }
10 component A ▸;◂
10 component A inherits ▸{◂ }
10 component A inherits B ▸inherits◂ C { }
10 component A inherits B ▸;◂
10 component A { }▸;◂
10 global ▸{◂ }
10 global G ▸inherits◂ W { }
10 struct ▸{◂ }
10 struct S ▸;◂
10 struct S { ▸,◂ }
10 struct S { a ▸,◂ }
10 struct S { a: ▸,◂ }
10 struct S { a: int ▸b◂: int }
10 struct S { a: int,▸,◂ }
10 struct S { a: int ▸;◂ }
10 struct S { }▸;◂
10 enum ▸{◂ a }
10 enum E ▸a◂
10 enum E { ▸}◂
10 enum E { ▸,◂ a }
10 enum E { a ▸b◂ }
10 enum E { a,▸,◂ }
10 enum E { a▸:◂ int }
10 struct S { a: [▸]◂ }
10 struct S { a: [int ▸}◂
10 struct S { a: [int▸,◂ int] }
10 struct S { a: { b: int ▸]◂
10 struct S { a: ▸5◂ }
10 struct S { a: ▸(◂int) }
10 component A { ▸5◂ }
10 component A { ▸;◂ }
10 component A { ▸(◂
10 component A { b ▸}◂
10 component A { b ▸c◂ }
10 component A { b ▸=◂ 1; }
10 component A { b▸.◂c: 1; }
10 component A { b: ▸;◂ }
10 component A { b: 1 ▸}◂
10 component A { b: 1; ▸;◂ }
10 component A { b: { };▸;◂ }
10 component A { b <=> ▸;◂ }
10 component A { b <=> c.▸;◂ }
10 component A { b <=> c ▸}◂
10 component A { b <=> c▸(◂); }
10 component A { b := ▸{◂ } }
10 component A { b := C ▸;◂ }
10 component A { b := C ▸:=◂ D { } }
10 component A { b { } ▸;◂ }
10 component A { property ▸:◂ 1; }
10 component A { private ▸:=◂ B { } }
10 component A { in ▸<=>◂ b; }
10 component A { out ▸(◂) => { } }
10 component A { in-out ▸:◂ 1; }
10 component A { pure ▸:◂ 1; }
10 component A { callback ▸:◂ 1; }
10 component A { public ▸{◂ } }
10 component A { protected ▸:◂ 1; }
10 component A { function ▸=>◂ { } }
10 component A { changed ▸:◂ 1; }
10 component A { states ▸=>◂ { } }
10 component A { if ▸=>◂ { } }
10 component A { for ▸=>◂ { } }
10 component A { private ▸int◂ b; }
10 component A { in ▸out◂ property <int> b; }
10 component A { property <▸>◂ b; }
10 component A { property <int ▸b◂; }
10 component A { property <int▸,◂ int> b; }
10 component A { property <int> ▸;◂ }
10 component A { property <int> b ▸}◂
10 component A { property <int> b ▸=◂ 1; }
10 component A { property <int> b: ▸;◂ }
10 component A { property <int> b <=> ▸;◂ }
10 component A { property <int> b <=> c.d ▸}◂
10 component A { property b▸;◂ }
10 component A { property b▸:◂ 1; }
10 component A { property b <=> c▸,◂ }
10 component A { pure callback ▸;◂ }
10 component A { callback b ▸:◂ 1; }
10 component A { callback b(▸,◂ int); }
10 component A { callback b(c ▸d◂); }
10 component A { callback b(c: ▸:◂ int); }
10 component A { callback b(c: int ▸;◂
10 component A { callback b(int,▸,◂ int); }
10 component A { callback b() ▸}◂
10 component A { callback b() ▸<=>◂ c; }
10 component A { callback b -> ▸;◂ }
10 component A { callback b -> int ▸{◂ } }
10 component A { callback b <=> ▸;◂ }
10 component A { callback b <=> c ▸->◂ int; }
10 component A { function ▸(◂) { } }
10 component A { function f ▸{◂ } }
10 component A { function f(▸,◂) { } }
10 component A { function f(a▸)◂ { } }
10 component A { function f(a: int ▸b◂: int) { } }
10 component A { function f(▸[◂int]) { } }
10 component A { function f() ▸;◂ }
10 component A { function f() -> ▸;◂ }
10 component A { function f() -> int ▸;◂ }
10 component A { function f() { }▸;◂ }
10 component A { pure ▸pure◂ function f() { } }
10 component A { public ▸protected◂ function f() { } }
10 component A { protected ▸protected◂ function f() { } }
10 component A { public pure ▸public◂ function f() { } }
10 component A { pure public ▸pure◂ function f() { } }
10 component A { pure ▸property◂ <int> b; }
10 component A { public ▸callback◂ b; }
10 component A { pure public ▸callback◂ b; }
10 component A { b(▸,◂) => { } }
10 component A { b(c ▸d◂) => { } }
10 component A { b(c▸:◂ int) => { } }
10 component A { b(c,▸,◂) => { } }
10 component A { b() ▸{◂ } }
10 component A { b => ▸;◂ }
10 component A { b => c ▸}◂
10 component A { b => { }; ▸;◂ }
10 component A { b => { c▸:◂ 1 } }
10 component A { b => { } ▸+◂ 1; }
10 component A { changed ▸=>◂ { } }
10 component A { changed b▸(◂) => { } }
10 component A { changed b ▸:◂ 1; }
10 component A { states ▸{◂ }
10 component A { states [ ▸:◂ ] }
10 component A { states [ b ▸{◂ } ] }
10 component A { states [ b when▸:◂ { } ] }
10 component A { states [ b when c ▸{◂ } ] }
10 component A { states [ b: ▸]◂ }
10 component A { states [ b: { ▸1◂ } ] }
10 component A { states [ b: { c▸;◂ } ] }
10 component A { states [ b: { c.▸:◂ 1; } ] }
10 component A { states [ b: { c: 1 ▸}◂ ] }
10 component A { states [ b: { } ▸,◂ c: { } ] }
10 component A { states [ ]▸;◂ }
10 component A { if ▸:◂ B { } }
10 component A { if b ▸B◂ { } }
10 component A { if b: ▸;◂ }
10 component A { if b: B ▸;◂ }
10 component A { if b: c := ▸{◂ } }
10 component A { if b: c ▸=>◂ { } }
10 component A { for ▸5◂ in b: C { } }
10 component A { for in ▸b◂: C { } }
10 component A { for b ▸c◂: D { } }
10 component A { for b[▸]◂ in c: D { } }
10 component A { for b[▸1◂] in c: D { } }
10 component A { for b[i ▸in◂ c: D { } }
10 component A { for b[i] ▸:◂ D { } }
10 component A { for b in ▸:◂ C { } }
10 component A { for b in c ▸D◂ { } }
10 component A { for b in c: ▸@◂children }
10 component A { @▸;◂ }
10 component A { @▸image-url◂("b") }
10 component A { @children▸;◂ }
10 global G { ▸;◂ }
10 global G { ▸5◂ }
10 global G { ▸@◂children }
10 global G { ▸changed◂ b => { } }
10 global G { ▸states◂ [ ] }
10 global G { ▸if◂ => { } }
10 global G { ▸for◂ => { } }
10 global G { b ▸:◂ 1; }
10 global G { b ▸{◂ } }
10 global G { b ▸:=◂ C { } }
10 global G { b ▸<=>◂ c; }
10 global G { property ▸{◂ } }
10 global G { pure ▸b◂; }
10 component A { b => { ▸)◂ } }
10 component A { b => { c ▸d◂ } }
10 component A { b => { c; d ▸component◂ } }
10 component A { b => { c = ▸;◂ } }
10 component A { b => { c = d ▸=◂ e } }
10 component A { b => { c += ▸+=◂ d } }
10 component A { b => { c ▸:=◂ d } }
10 component A { b => { c ▸<=>◂ d } }
10 component A { b => { { c ▸}◂ } } }
10 component A { b => { return c ▸=◂ d; } }
10 component A { b => { return ▸)◂ } }
10 component A { b => { if ▸;◂ } }
10 component A { b => { if ▸:◂ 1 } }
10 component A { b => { if { c ▸}◂ } } }
10 component A { b => { if c ▸;◂ } }
10 component A { b => { if c { } else ▸;◂ } }
10 component A { b => { if c { } else ▸d◂ { } } }
10 component A { b => { if c { } else { } ▸else◂ { } } }
10 component A { b => { if c { } else if d { } else { } ▸else◂ { } } }
10 component A { b => { if c { } ; else ▸{◂ } } }
10 component A { b => { else ▸{◂ } } }
10 component A { b => { if ▸=◂ 1; } }
10 component A { b: { c; if ▸:◂ 1 } }
10 component A { b: { if { } ▸:◂ 1 } }
10 component A { b: c ? ▸:◂ d; }
10 component A { b: c ? d ▸;◂ }
10 component A { b: c ? d : ▸;◂ }
10 component A { b: c ? d : e ▸:◂ f; }
10 component A { b: c && d ▸||◂ e; }
10 component A { b: c || d ▸&&◂ e; }
10 component A { b: c && ▸;◂ }
10 component A { b: c || ▸;◂ }
10 component A { b: c == d ▸==◂ e; }
10 component A { b: c < d ▸>=◂ e; }
10 component A { b: c == ▸;◂ }
10 component A { b: c + ▸;◂ }
10 component A { b: c * ▸*◂ d; }
10 component A { b: !▸;◂ }
10 component A { b: -▸)◂; }
10 component A { b: c.▸5◂; }
10 component A { b: c.▸(◂); }
10 component A { b: c(▸,◂); }
10 component A { b: c(d ▸e◂); }
10 component A { b: c(d,▸,◂ e); }
10 component A { b: c(d ▸;◂
10 component A { b: c[▸]◂; }
10 component A { b: c[d▸,◂ e]; }
10 component A { b: c[d ▸;◂
10 component A { b: (▸)◂; }
10 component A { b: (c▸,◂ d); }
10 component A { b: (c ▸;◂
10 component A { b: [▸,◂]; }
10 component A { b: [c ▸d◂]; }
10 component A { b: [c,▸,◂ d]; }
10 component A { b: [c ▸;◂
10 component A { b: { c: ▸,◂ }; }
10 component A { b: { c: 1 ▸d◂: 2 }; }
10 component A { b: { c: 1,▸,◂ }; }
10 component A { b: { c: 1, d▸,◂ }; }
10 component A { b: { c: 1 ▸;◂ } }
10 component A { b: { c: 1 } ▸}◂
10 component A { b: { 5▸:◂ 1 }; }
10 component A { b: { }▸.◂c; }
10 component A { b: ({ ▸5◂: 1 }); }
10 component A { b: ({ ▸,◂ }); }
10 component A { b: ({ c ▸}◂); }
10 component A { b: @▸;◂ }
10 component A { b: @▸children◂; }
10 component A { b: @image-url ▸"c"◂; }
10 component A { b: @image-url(▸c◂); }
10 component A { b: @image-url("c"▸,◂); }
10 component A { b: @tr ▸"c"◂; }
10 component A { b: @tr(▸)◂; }
10 component A { b: @tr("c" ▸d◂); }
10 component A { b: @tr("c" => ▸d◂); }
10 component A { b: @tr("c" => "d" ▸=>◂ "e"); }
10 component A { b: @tr("c",▸,◂); }
10 component A { b: @tr("c", d ▸;◂
10 component A { b: "c\{▸}"◂; }
10 component A { b: "c\{d ▸e◂ }"; }
10 component A { b: "c\{d▸;◂}"; }
10 component A { b: "c\{d}e\{▸}"◂; }
10 component A { b: "c" ▸"d"◂; }
10 import // a▸◂
10 import▸◂
10 import {▸◂
10 export▸◂
10 component▸◂
10 component A▸◂
10 component A {▸◂
10 component A { // b▸◂
10 component A { b: 1 /* c */ ▸◂
10 component A { b: "c\{d▸◂
10 component A { E { }▸◂
10 global G {▸◂
10 struct S { a: int▸◂
10 enum E {▸◂
2 x ▸$◂
2 ▸/*◂ component A { }
2 component A { b: ▸"◂c; }
2 component A { b: "a\{"b\{1}}"▸}◂; }
3 component A { b: ▸12qq◂; }
4 component A { b: "c▸\q◂"; }
ok
ok component A { b: { if: 1 }; }
ok component A { b: { return: 1, else: 2 }; }
10 component A { b: { if ▸}◂; }
ok component A { b: { else }; }
ok component A { b => { else = 1; if c { } d } }
ok component A { for in in in: C { } }
ok component A { states [ when when when: { } ] }
ok component A { if if: if { } }
ok component A { else { } }
ok component A { b => { return return } }
11 component A { ⟦98 E {⟧ x: { a ▸;◂ };
11 component A { ⟦98 E {⟧ x: { a▸}◂;
11 component A { ⟦98 E {⟧ x: { a▸.◂b };
10 component A { ⟦98 E {⟧ x: { a ▸]◂ };
11 component A { ⟦98 E {⟧ x: { a: ▸1◂ };
11 component A { ⟦98 E {⟧ x: { ▸1◂ };
11 component A { ⟦98 E {⟧ x: { if ▸b◂ { } };
11 component A { ⟦98 E {⟧ x: { if: ▸1◂ };
11 component A { ⟦98 E {⟧ x: { return ▸a◂ };
11 component A { ⟦98 E {⟧ x => { ▸a◂ };
11 component A { ⟦98 E {⟧ x => { if ▸a◂ { } };
11 component A { ⟦98 E {⟧ x: -▸1◂;
11 component A { ⟦98 E {⟧ x: a ? ▸b◂ : c;
11 component A { ⟦98 E {⟧ x: a(▸b◂);
11 component A { ⟦98 E {⟧ x: a[▸b◂];
11 component A { ⟦98 E {⟧ x: (▸a◂);
11 component A { ⟦98 E {⟧ x: [▸a◂];
11 component A { ⟦98 E {⟧ x: "a\{▸b◂}";
11 component A { ⟦98 E {⟧ x: @tr("a", ▸b◂);
11 component A { ⟦97 E {⟧ x => { if a { } else if ▸b◂ { } }
11 component A { ⟦99 E {⟧ x: ▸1◂;
10 component A { ⟦99 E {⟧ x: ▸;◂
11 component A { ⟦99 E {⟧ x: ▸{◂ };
11 component A { ⟦99 E {⟧ x => ▸{◂ }
11 component A { ⟦99 E {⟧ x => ▸a◂;
11 component A { ⟦99 E {⟧ F ▸{◂ }
11 component A { ⟦99 E {⟧ f := F ▸{◂ }
11 component A { ⟦99 E {⟧ callback c(a ▸)◂;
11 component A { ⟦99 E {⟧ callback c(a▸,◂ b);
10 component A { ⟦99 E {⟧ callback c(a ▸;◂
11 component A { ⟦99 E {⟧ callback c(a: ▸int◂);
11 component A { ⟦99 E {⟧ callback c(▸[◂int]);
11 component A { ⟦99 E {⟧ callback c(▸{◂ a: int });
11 component A { ⟦99 E {⟧ callback c -> ▸int◂;
11 component A { ⟦99 E {⟧ property <▸int◂> p;
11 component A { ⟦99 E {⟧ function f(a: ▸int◂) { }
11 component A { ⟦99 E {⟧ function f() ▸{◂ }
11 component A { ⟦99 E {⟧ function f() -> ▸int◂ { }
11 component A { ⟦99 E {⟧ if ▸a◂: F { }
11 component A { ⟦99 E {⟧ for a in ▸b◂: F { }
11 component A { ⟦99 E {⟧ states [ a when ▸b◂: { } ]
11 component A { ⟦99 E {⟧ states [ a: { b: ▸1◂; } ]
11 component A { ⟦99 E {⟧ changed a => ▸b◂;
ok component A { ⟦98 E {⟧ x: 1; y: { } z: { ; } u: { return; } v: a.b * c + d; w => { } ⟦98 }⟧ }
ok component A { ⟦98 E {⟧ F { } f := F { } if a: F { } for a[b] in c: F { } ⟦98 }⟧ }
ok component A { ⟦98 E {⟧ property <int> p: 1; callback c(a: int, int) -> int; function f(a: int) -> int { } ⟦98 }⟧ }
ok component A { ⟦97 E {⟧ x => { if a { } else { } } ⟦97 }⟧ }
ok component A { ⟦96 E {⟧ x => { if a { } else if b { } } ⟦96 }⟧ }
ok export component Main inherits Window {     property <int> a: ⟦98 (⟧1⟦98 )⟧; }
11 export component Main inherits Window {     property <int> a: ⟦99 (⟧▸1◂
ok component A { b: ⟦98 -⟧1; }
11 component A { b: ⟦99 -⟧▸1◂
ok component A { b: ⟦98 [⟧1⟦98 ]⟧; }
11 component A { b: ⟦99 [⟧▸1◂
ok component A { b: ⟦98 { c: ⟧1⟦98  }⟧; }
11 component A { b: ⟦99 { c: ⟧▸1◂
ok component A { b: ⟦98 c(⟧1⟦98 )⟧; }
11 component A { b: ⟦99 c(⟧▸1◂
ok component A { b: ⟦98 c[⟧1⟦98 ]⟧; }
11 component A { b: ⟦99 c[⟧▸1◂
ok component A { b: ⟦98 "\{⟧1⟦98 }"⟧; }
11 component A { b: ⟦99 "\{⟧▸1◂
ok component A { property <⟦98 [⟧int⟦98 ]⟧> b; }
11 component A { property <⟦99 [⟧▸int◂
ok component A { property <⟦98 { c: ⟧int⟦98  }⟧> b; }
11 component A { property <⟦99 { c: ⟧▸int◂
ok global G { b => ⟦99 (⟧1⟦99 )⟧; }
11 global G { b => ⟦100 (⟧▸1◂
ok struct S { a: ⟦99 [⟧int⟦99 ]⟧ }
11 struct S { a: ⟦100 [⟧▸int◂
ok component A { b: ⟦98 c ? 1 : ⟧1; }
11 component A { b: ⟦98 c ? 1 : ⟧c ? ▸1◂ : 1; }
ok component A { b => { ⟦98 if c {⟧ ⟦98 }⟧ } }
11 component A { b => { ⟦98 if c {⟧ if ▸c◂ { }
ok component A { b => { if c { } ⟦97 else if c { } ⟧} }
11 component A { b => { if c { } ⟦97 else if c { } ⟧else if ▸c◂ { }
ok component A { ⟦99 E {⟧ ⟦99 }⟧ }
11 component A { ⟦99 E {⟧ E ▸{◂ }"#
}

/// A row in full.
fn in_full(alloc: Global, row: &str) -> Result<String, AllocError> {
    let mut all = String::new(alloc);
    for part in row.split('⟦') {
        let (repeated, behind) = part.split_once('⟧').unwrap_or(("", part));
        let (count, text) = repeated.split_once(' ').unwrap_or(("0", ""));
        for _ in 0..count.parse().unwrap_or(0u32) {
            all.push_str(text)?;
        }
        all.push_str(behind)?;
    }
    Ok(all)
}

/// The source in a row, and what is told of it.
fn source_and_outcome(alloc: Global, row: &str) -> Result<(String, String), AllocError> {
    let (rule, marked) = row.split_once(' ').unwrap_or((row, ""));
    let Some((before, rest)) = marked.split_once('▸') else {
        return Ok((
            String::from_str(alloc, marked)?,
            String::from_str(alloc, rule)?,
        ));
    };
    let (token, behind) = rest.split_once('◂').unwrap_or((rest, ""));
    let start = before.len();
    let end = start.saturating_add(token.len());
    Ok((
        format!(in alloc; "{before}{token}{behind}")?,
        format!(in alloc; "{rule} {start}-{end}")?,
    ))
}

/// What is told of a source: the rule that it breaks and the bytes where it does, or `ok`.
fn outcome(alloc: Global, source: &str) -> Result<String, AllocError> {
    match read(alloc, source) {
        Ok(_) => String::from_str(alloc, "ok"),
        Err(End::Memory) => String::from_str(alloc, "no memory"),
        Err(End::Fault(fault)) => {
            let (rule, span) = (fault.rule.number(), fault.span);
            format!(in alloc; "{rule} {}-{}", span.start, span.end)
        }
    }
}

#[test]
fn faults_are_told_at_the_first_token_that_cannot_stand(rt: HostRuntime) -> Result<(), Fail> {
    for row in rows().split('\n') {
        let row = in_full(rt.alloc(), row)?;
        let (source, want) = source_and_outcome(rt.alloc(), row.as_str())?;
        let told = outcome(rt.alloc(), source.as_str())?;
        assert_eq!(rt; told.as_str(), want.as_str(), "at {row}");
    }
    Ok(())
}
