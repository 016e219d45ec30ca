use crate::building::{read, shown, type_named};
use slint_base::Memory;
use std::alloc::Global;
use std::test::Fail;
use value_types::{Ty, Value, convert, default_of, same};

/// A printed value, its type, another type, and the value in that type.
fn rows() -> &'static str {
    r##"90deg of angle to string -> None
[1] of [float] to color -> None
1000ms of duration to [[length]] -> None
5 of float to int -> 5
-5 of float to string -> "-5"
1000ms of duration to duration -> 1000ms
#12345678 of color to length -> None
0 of int to string -> "0"
"-7" of string to angle -> None
2147483647 of int to angle -> None
[] of [int] to [int] -> []
7 of int to string -> "7"
9000000000 of float to int -> 2147483647
[] of [[length]] to [[length]] -> []
2147483648 of float to string -> "2147483648"
-3 of int to string -> "-3"
0 of int to length -> 0px
0deg of angle to color -> None
0% of percent to float -> 0
96px of length to bool -> None
[] of [int] to [float] -> []
"0" of string to string -> "0"
1.333px of length to bool -> None
0deg of angle to {a: int, b: string} -> None
false of bool to angle -> None
[] of [float] to [float] -> []
5 of float to float -> 5
96px of length to duration -> None
50% of percent to percent -> 50%
1.333px of length to int -> None
12px of length to [float] -> None
-3.999999 of float to int -> -3
0.000001 of float to string -> "0.000001"
7 of float to {a: int, b: string} -> None
"0.000001" of string to [int] -> None
-5 of int to float -> -5
2 of int to [float] -> None
5 of int to string -> "5"
#12345678 of color to color -> #12345678
{ a: 0, b: "" } of {a: int, b: string} to [float] -> None
{ a: 0, b: "" } of {a: int, b: string} to duration -> None
[1, 2.5] of [float] to [int] -> [1, 2]
0 of int to int -> 0
9000000000 of float to [float] -> None
12px of length to int -> None
7 of float to string -> "7"
-5 of float to float -> -5
0ms of duration to [[length]] -> None
[[1px], []] of [[length]] to color -> None
[] of [int] to [[length]] -> []
-5 of int to int -> -5
"1.000001" of string to int -> None
2.5 of float to color -> None
2147483647 of int to float -> 2147483647
[1, 2.5] of [float] to [float] -> [1, 2.5]
[] of [float] to [int] -> []
-7 of float to float -> -7
{ a: 0, b: "" } of {a: int, b: string} to angle -> None
"-5" of string to float -> None
0deg of angle to float -> None
-5 of int to [float] -> None
"7" of string to bool -> None
0px of length to {a: int, b: string} -> None
5 of int to color -> None
"-7" of string to color -> None
"2.5" of string to string -> "2.5"
[[1px], []] of [[length]] to float -> None
0ms of duration to int -> None
"0.000001" of string to float -> None
{ a: 0, b: "" } of {a: int, b: string} to int -> None
96px of length to length -> 96px
-5 of float to int -> -5
0% of percent to string -> None
[] of [float] to duration -> None
-50% of percent to [float] -> None
2.5 of float to float -> 2.5
#12345678 of color to angle -> None
-5 of float to length -> None
-1.5px of length to percent -> None
9000000000 of float to float -> 9000000000
-7 of float to string -> "-7"
2147483647 of int to length -> None
-3.999999 of float to float -> -3.999999
7 of int to bool -> None
50% of percent to float -> 0.5
[1, 2] of [int] to [int] -> [1, 2]
"2147483648" of string to bool -> None
"-7" of string to string -> "-7"
5 of int to float -> 5
1.333px of length to float -> None
-1.5px of length to [[length]] -> None
{ a: 1, b: "x" } of {a: int, b: string} to int -> None
"2.5" of string to int -> None
#ff0000ff of color to angle -> None
90deg of angle to int -> None
0.000001 of float to float -> 0.000001
0ms of duration to float -> None
360deg of angle to angle -> 360deg
1.000001 of float to float -> 1.000001
0.5 of float to string -> "0.5""##
}

/// The value, its type, the other type and what is wanted, of a row.
fn row(line: &str) -> Option<(&str, &str, &str, &str)> {
    let (value, behind) = line.split_once(" of ")?;
    let (from, behind) = behind.split_once(" to ")?;
    let (to, wanted) = behind.split_once(" -> ")?;
    Some((value, from, to, wanted))
}

/// A value in a type, if there is a value.
fn converted(alloc: Global, value: &Option<Value>, to: &Ty) -> Result<Option<Value>, Memory> {
    match value {
        Some(value) => convert(alloc, value, to),
        None => Ok(None),
    }
}

#[test]
fn values_in_types(rt: HostRuntime) -> Result<(), Fail> {
    for line in rows().lines() {
        let (text, from, to, wanted) = row(line).ok_or("a row")?;
        let value = read(rt.alloc(), text, &type_named(rt.alloc(), from)?)?;
        assert_eq!(rt; value.is_some(), true, "{line}");
        let made = converted(rt.alloc(), &value, &type_named(rt.alloc(), to)?)?;
        assert_eq!(rt;
            shown(rt.alloc(), &made, "None")?.as_str(),
            wanted,
            "{line}"
        );
    }
    Ok(())
}

/// Types, and their defaults as they are printed.
fn defaults() -> &'static str {
    r##"int = 0
float = 0
percent = 0%
bool = false
string = ""
color = #00000000
length = 0px
duration = 0ms
angle = 0deg
image = @image-url("")
enum = E.one
[[length]] = []
{a: int, b: string} = { a: 0, b: "" }"##
}

#[test]
fn defaults_and_copies(rt: HostRuntime) -> Result<(), Fail> {
    for line in defaults().lines() {
        let (name, wanted) = line.split_once(" = ").ok_or("a row")?;
        let ty = type_named(rt.alloc(), name)?.copy(rt.alloc())?;
        let value = default_of(rt.alloc(), &ty)?;
        let copied = value.copy(rt.alloc())?;
        assert!(rt; same(&value, &copied), "{line}");
        assert_eq!(rt;
            shown(rt.alloc(), &Some(copied), "")?.as_str(),
            wanted,
            "{line}"
        );
    }
    Ok(())
}
