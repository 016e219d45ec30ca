use crate::building::{read, shown, type_named};
use slint_base::Memory;
use std::alloc::Global;
use std::test::Fail;
use value_types::{Ty, Value, same};

/// A text in quotes, a type, and the value that the text is read as, printed.
fn rows() -> &'static str {
    r##"'1.0000005' as float -> 1.000001
'9000000000.1' as [int] -> not readable
'1turn' as string -> not readable
'[ [1px], [] ]' as int -> not readable
'2147483648' as float -> 2147483648
'1in' as color -> not readable
'1in' as length -> 96px
'2147483648' as int -> 2147483647
'red' as color -> #ff0000ff
'{ a: 1 }' as float -> not readable
'#fff' as color -> #ffffffff
'007' as {a: int, b: string} -> not readable
'1pt' as angle -> not readable
'2.5' as string -> "2.5"
'100grad' as percent -> not readable
'100grad' as [[length]] -> not readable
'1turn' as [float] -> not readable
'[1, 2.5]' as [float] -> [1, 2.5]
'2.54cm' as length -> 96px
'0' as [int] -> not readable
'[1,]' as [int] -> [1]
'"a" "b"' as string -> not readable
'"a\nb\u{e9}"' as color -> not readable
'{ }' as float -> not readable
'2.5' as [float] -> not readable
'{ a: 1, a: 2 }' as {a: int, b: string} -> not readable
'- 5' as duration -> not readable
'1s' as duration -> 1000ms
'12px' as bool -> not readable
'transparent' as color -> #00000000
'- 5' as string -> "-5"
' 5' as length -> not readable
'-0' as int -> 0
'0.0000005' as [[length]] -> not readable
'5 px' as bool -> not readable
'100grad' as angle -> 90deg
'-3.999999' as float -> -3.999999
'"a" "b"' as bool -> not readable
'-7' as float -> -7
'transparent' as [float] -> not readable
'1s' as percent -> not readable
'#12' as [[length]] -> not readable
'-0' as percent -> 0%
'12px' as int -> not readable
'100grad' as color -> not readable
'[ ]' as [[length]] -> []
'[ [1px], [] ]' as bool -> not readable
'-7' as [[length]] -> not readable
'-3.999999' as int -> -3
'#12' as duration -> not readable
'"a\nb\u{e9}"' as length -> not readable
'50%' as int -> not readable
'[ ]' as string -> not readable
'2.54cm' as [float] -> not readable
'' as duration -> not readable
'0' as percent -> 0%
'{ b: 3 }' as {a: int, b: string} -> { a: 0, b: "3" }
' 5' as [float] -> not readable
'[1,]' as bool -> not readable
'2147483648' as [[length]] -> not readable
'#12' as string -> not readable
'[ [1px], [] ]' as float -> not readable
'2.54cm' as bool -> not readable
'2147483647' as string -> "2147483647"
'-50%' as percent -> -50%
'false' as length -> not readable
'red' as {a: int, b: string} -> not readable
'2147483648' as [float] -> not readable
'#12345678' as percent -> not readable
'- 5' as int -> -5
'#12' as int -> not readable
'2147483648' as bool -> not readable
'-0' as string -> "0"
'{ }' as {a: int, b: string} -> { a: 0, b: "" }
'{ c: 1 }' as [int] -> not readable
'{ a: 1, b: "x", }' as int -> not readable
'red' as percent -> not readable
'1.0000005' as int -> 1
'90deg' as float -> not readable
'1ms' as [[length]] -> not readable
'[ ]' as {a: int, b: string} -> not readable
'{ b: 3 }' as float -> not readable
'{ a: 1 }' as {a: int, b: string} -> { a: 1, b: "" }
'0.0000005' as {a: int, b: string} -> not readable
'false' as duration -> not readable
'transparent' as [[length]] -> not readable
'9000000000' as int -> 2147483647
'2.5' as int -> 2
'{ a: 1, b: "x", }' as duration -> not readable
'1s' as {a: int, b: string} -> not readable
'2147483647' as [int] -> not readable
'-1.5px' as string -> not readable
'2147483647' as float -> 2147483647
'"a\nb\u{e9}"' as duration -> not readable
'"a\nb\u{e9}"' as string -> "a\nbé"
'2.5' as angle -> not readable
'5' as [float] -> not readable
'0.0000005' as int -> 0
'-0' as float -> 0
'2147483647' as color -> not readable
'9000000000.1' as [[length]] -> not readable
'9000000000' as angle -> not readable
'{ c: 1 }' as int -> not readable
'"a\nb\u{e9}"' as {a: int, b: string} -> not readable
'red' as duration -> not readable
'[1,]' as [[length]] -> not readable
'+5' as [float] -> not readable
'100grad' as string -> not readable
'-7' as [int] -> not readable
'1pt' as color -> not readable
'"open' as string -> not readable
'{ a: 1, a: 2 }' as percent -> not readable
'1turn' as bool -> not readable
'2147483648' as length -> not readable
'1e3' as string -> not readable
'0.0000005' as string -> "0.000001"
'-0' as angle -> 0deg
'0' as color -> not readable
'[1 2]' as [int] -> not readable
' 5' as bool -> not readable
'red' as length -> not readable
'0.0000005' as angle -> not readable
'5' as float -> 5
'{ b: 3 }' as int -> not readable
'[ ]' as angle -> not readable
'+5' as color -> not readable
'1in' as [float] -> not readable
'{ a: 1, b: "x", }' as {a: int, b: string} -> { a: 1, b: "x" }
'12px' as length -> 12px
'1ms' as color -> not readable
'-50%' as color -> not readable
'- 5' as float -> -5
'50%' as float -> 0.5
'-50%' as angle -> not readable
'false' as string -> not readable
'"a\nb\u{e9}"' as float -> not readable
'0' as int -> 0
'[ ]' as [float] -> []
'true' as string -> not readable
'1ms' as int -> not readable
'{ a: 1 }' as string -> not readable
'9000000000' as float -> 9000000000
'{ c: 1 }' as duration -> not readable
'50%' as percent -> 50%
'2.54cm' as float -> not readable
'9000000000' as [int] -> not readable
'9000000000.1' as float -> not readable
'1pt' as int -> not readable
'0.5s' as duration -> 500ms
'1ms' as duration -> 1ms
'007' as float -> 7
'1s' as angle -> not readable
'0' as string -> "0"
' 5' as int -> 5
'-7' as int -> -7
'[ [1px], [] ]' as percent -> not readable
'5' as int -> 5
'50%' as [int] -> not readable
'1.0000005' as percent -> not readable
'"\q"' as string -> not readable"##
}

/// Values of the types that the rows above lack, and texts that end early or go on.
fn further_rows() -> &'static str {
    r##"'one' as enum -> E.one
'E.two' as enum -> E.two
' E . two ' as enum -> E.two
'F.two' as enum -> not readable
'three' as enum -> not readable
'true' as bool -> true
'1' as bool -> not readable
'@image-url("a.png")' as image -> @image-url("a.png")
'@image_url ( "" )' as image -> @image-url("")
'@image-url(a)' as image -> not readable
'"a.png"' as image -> not readable
'[[1px, 0], [],]' as [[length]] -> [[1px, 0px], []]
'[,]' as [int] -> not readable
'[1,,]' as [int] -> not readable
'[1' as [int] -> not readable
'[1]]' as [int] -> not readable
'{ a: 1 b: 2 }' as {a: int, b: string} -> not readable
'-2147483648' as int -> -2147483648
'Colors.red' as color -> not readable"##
}

/// The text, the type and what is wanted, of a row.
fn row(line: &str) -> Option<(&str, &str, &str)> {
    let (quoted, behind) = line.split_once("' as ")?;
    let (ty, wanted) = behind.split_once(" -> ")?;
    Some((quoted.strip_prefix('\'')?, ty, wanted))
}

/// Whether a value is read from its printed text as itself.
fn reads_again(
    alloc: Global,
    value: &Option<Value>,
    printed: &str,
    ty: &Ty,
) -> Result<bool, Memory> {
    match (value, &read(alloc, printed, ty)?) {
        (Some(value), Some(again)) => Ok(same(value, again)),
        _ => Ok(value.is_none()),
    }
}

#[test]
fn written_values(rt: HostRuntime) -> Result<(), Fail> {
    for table in [rows(), further_rows()] {
        for line in table.lines() {
            let (text, name, wanted) = row(line).ok_or("a row")?;
            let ty = type_named(rt.alloc(), name)?;
            let value = read(rt.alloc(), text, &ty)?;
            let printed = shown(rt.alloc(), &value, "not readable")?;
            assert_eq!(rt; printed.as_str(), wanted, "{line}");
            assert!(rt;
                reads_again(rt.alloc(), &value, printed.as_str(), &ty)?,
                "{line}"
            );
        }
    }
    Ok(())
}
