use crate::building::type_named;
use slint_base::Memory;
use std::alloc::Global;
use std::test::Fail;
use value_types::{Ty, common_type, default_of, same};

/// Two types, and what they have in common.
fn rows() -> &'static str {
    r##"int + int = int
int + float = float
zero + length = length
angle + zero = angle
zero + string = string
zero + percent = float
percent + percent = percent
percent + int = float
string + int = string
string + bool = none
length + angle = none
length + int = none
image + string = none
enum + enum = enum
empty + [int] = [int]
[int] + [float] = [float]
[int] + {a: int, b: string} = none
{a: int, b: string} + {a: int, b: string} = {a: int, b: string}"##
}

/// The two types and what is wanted, of a row.
fn row(line: &str) -> Option<(&str, &str, &str)> {
    let (first, behind) = line.split_once(" + ")?;
    let (second, wanted) = behind.split_once(" = ")?;
    Some((first, second, wanted))
}

/// Whether a type is there and has the default of a wanted one, or is rightly missing.
fn is_wanted(alloc: Global, found: &Option<Ty>, wanted: &str) -> Result<bool, Memory> {
    match found {
        Some(ty) => Ok(same(
            &default_of(alloc, ty)?,
            &default_of(alloc, &type_named(alloc, wanted)?)?,
        )),
        None => Ok(wanted == "none"),
    }
}

#[test]
fn types_in_common(rt: HostRuntime) -> Result<(), Fail> {
    for line in rows().lines() {
        let (first, second, wanted) = row(line).ok_or("a row")?;
        let found = common_type(
            rt.alloc(),
            &type_named(rt.alloc(), first)?,
            &type_named(rt.alloc(), second)?,
        )?;
        assert!(rt; is_wanted(rt.alloc(), &found, wanted)?, "{line}");
    }
    Ok(())
}
