use crate::sources::read;
use std::test::Fail;
use syntax_tree::print_tree;

/// Sources with each production of the grammar at least once, and below each what is printed of it, without the last blank.
fn rows() -> &'static str {
    r#"export component Main inherits Window { in-out property <int> a: 2; in-out property <int> b: a * 3; }
export component Main inherits Window { in-out property < int > a : 2 ; in-out property < int > b : a * 3 ; }

import "a.slint";
import "a.slint" ;

import {} from "a";
import { } from "a" ;

import { A, B as C, } from "a";
import { A , B as C } from "a" ;

export { A, B as C };
export { A , B as C }

export * from "a";
export * from "a" ;

export struct S { a: int, b: [{ c: string, }], }
export struct S { a : int , b : [ { c : string } ] }

enum E { a_b, c, }
enum E { a-b , c }

component A {}
component A { }

component A inherits B { c := D { } E {} @children }
component A inherits B { c := D { } E { } @ children }

global G { property <int> p; callback c; public function f() {} c => {} }
global G { property < int > p ; callback c ; public function f ( ) { } c => { } }

component A { private property <int> a; in property <int> b: 1; out property <int> c: { return 2; }; }
component A { private property < int > a ; in property < int > b : 1 ; out property < int > c : { return 2 ; } }

component A { in-out property <int> d <=> e.f; property g <=> h; i <=> j.k; }
component A { in-out property < int > d <=> e . f ; property g <=> h ; i <=> j . k ; }

component A { pure callback a(int, b: string,) -> bool; callback c() ; callback d <=> e; }
component A { pure callback a ( int , b : string ) -> bool ; callback c ( ) ; callback d <=> e ; }

component A { public pure function f(a: int,) -> int { a } protected pure function g() { } pure function h() {} protected function i() {} function j() {} }
component A { pure public function f ( a : int ) -> int { a ; } pure protected function g ( ) { } pure function h ( ) { } protected function i ( ) { } function j ( ) { } }

component A { b: 1; c: { }; d => { } e() => f; g(h, i,) => { }; changed j => { } changed k => l; }
component A { b : 1 ; c : { } d => { } e ( ) => f ; g ( h , i ) => { } changed j => { } changed k => l ; }

component A { states [ b when c: { d.e: 1; f: { } } g: { } ] }
component A { states [ b when c : { d . e : 1 ; f : { } } g : { } ] }

component A { if b: c := D {} for e in f: G {} for h[i] in 3: J {} }
component A { if b : c := D { } for e in f : G { } for h [ i ] in 3 : J { } }

component A { b => { if c { ; } else if d { return; } else { e = 1; f += 2; g -= 3; h *= 4; i /= 5 } } }
component A { b => { if c { ; } else if d { return ; } else { e = 1 ; f += 2 ; g -= 3 ; h *= 4 ; i /= 5 ; } } }

component A { b: c ? d : e ? f : g; }
component A { b : c ? d : e ? f : g ; }

component A { b: c && d && e; f: g || h || i; }
component A { b : c && d && e ; f : g || h || i ; }

component A { b: c == d; e: f != g; h: i < j; k: l <= m; n: o > p; q: r >= s; }
component A { b : c == d ; e : f != g ; h : i < j ; k : l <= m ; n : o > p ; q : r >= s ; }

component A { b: c + d - e * f / g; }
component A { b : c + d - e * f / g ; }

component A { b: !-+c; d: -(e + f); }
component A { b : ! - + c ; d : - ( e + f ) ; }

component A { b: c.d(e, f,)[g].h(); }
component A { b : c . d ( e , f ) [ g ] . h ( ) ; }

component A { b: [1, c,]; d: []; }
component A { b : [ 1 , c ] ; d : [ ] ; }

component A { b: { c: 1, d: { e: 2, } }; f => { {}; } }
component A { b : { c : 1 , d : { e : 2 } } ; f => { { } ; } }

component A { b: @image-url("c.png"); }
component A { b : @ image-url ( "c.png" ) ; }

component A { b: @tr("c"); d: @tr("e" => "f", g, h,); }
component A { b : @ tr ( "c" ) ; d : @ tr ( "e" => "f" , g , h ) ; }

component A { b: "c\{d}e\{"f\{g}"}h"; }
component A { b : "c\{ d }e\{ "f\{ g }" }h" ; }

component A { b: "\"\\\n\u{1}"; }
component A { b : "\"\\\n\u{1}" ; }

component A { b: 0; c: 1.5; d: 50%; e: 2px; f: 1s; g: 1turn; }
component A { b : 0 ; c : 1.500000 ; d : 50.000000% ; e : 2.000px ; f : 1000ms ; g : 360.000deg ; }

component A { b: #fff; c: #12345678; }
component A { b : #ffffffff ; c : #12345678 ; }

struct S {} export {} enum E { a }
struct S { } export { } enum E { a }

component A { callback a -> int; callback b(c: [int]) -> { d: int }; callback e({ f: int, }); callback g(); }
component A { callback a -> int ; callback b ( c : [ int ] ) -> { d : int } ; callback e ( { f : int } ) ; callback g ( ) ; }

component A { pure public function a() {} pure protected function b() {} public pure function c() {} protected pure function d() {} }
component A { pure public function a ( ) { } pure protected function b ( ) { } pure public function c ( ) { } pure protected function d ( ) { } }

component A { from: 1; when => { } children := else { } component { } }
component A { from : 1 ; when => { } children := else { } component { } }

component A { a => { if b { } c; if d { } else { } return e; if f { } ; g } }
component A { a => { if b { } c ; if d { } else { } return e ; if f { } ; g ; } }

component A { a => { return f }; b => { ; }; c => { return }; d => { e += 1 }; }
component A { a => { return f ; } b => { ; } c => { return ; } d => { e += 1 ; } }

component A { a: { b: 1 }.b; c: { b }; d: { }; e: { f: { } }.f.g; }
component A { a : { b : 1 } . b ; c : { b ; } d : { } e : { f : { } } . f . g ; }

component A { property <[{ a: int }]> b; property <{ }> c: d; }
component A { property < [ { a : int } ] > b ; property < { } > c : d ; }

component A { a: b ? c ? d : e : f; g: (h && i) || !(j || k); }
component A { a : b ? c ? d : e : f ; g : ( h && i ) || ! ( j || k ) ; }

component A { a: f({}, [], { b: 1 }); c: "\u{e9}\u{7f}"; d: "\{{}}"; }
component A { a : f ( { } , [ ] , { b : 1 } ) ; c : "é\u{7f}" ; d : "\{ { } }" ; }

component A { a: - 1 + + 2 - - 3; b: 1 - -2 * ! c; }
component A { a : - 1 + + 2 - - 3 ; b : 1 - - 2 * ! c ; }

component A { a: 1in; b: 2.50deg; c: 007; d: 3000000000; e: 0px; f: 1.5ms; }
component A { a : 96.000px ; b : 2.500deg ; c : 7 ; d : 3000000000.000000 ; e : 0.000px ; f : 2ms ; }"#
}

#[test]
fn trees_are_printed_and_read_again(rt: HostRuntime) -> Result<(), Fail> {
    for row in rows().split("\n\n") {
        let (source, want) = row.split_once('\n').unwrap_or((row, ""));
        let printed = print_tree(rt.alloc(), &read(rt.alloc(), source)?)?;
        assert_eq!(rt;
            printed.as_str().strip_suffix(' '),
            Some(want),
            "of {source}"
        );
        let again = print_tree(rt.alloc(), &read(rt.alloc(), printed.as_str())?)?;
        assert_eq!(rt; again.as_str(), printed.as_str(), "of {source}");
    }
    Ok(())
}
