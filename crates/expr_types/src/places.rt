ghost use Rattle.std.specs.Prelude.{◌≡◌};
ghost use Rattle.std.specs.Option.{option_copied};
ghost use Rattle.value_types.specs.Conversions.{field_named};
ghost use Rattle.expr_rules.specs.Denotations.{field_place, item_place};

use slint_base::Name;
use value_types::{Fields, Ty};

/// What is wanted of an item, where `place` is wanted of the whole.
pub(crate) fn item_place<'a>(place: Option<&'a Ty>) -> Option<&'a Ty>
    ensures { option_copied result ≡ item_place (option_copied place.entry) }
{
    let ty = place?;
    match ty {
        Ty::Array(item) => Some(item.get()),
        Ty::Void => Some(ty),
        _ => None,
    }
}

/// What is wanted of a field, where `place` is wanted of the whole.
pub(crate) fn field_place<'a>(place: Option<&'a Ty>, name: &Name) -> Option<&'a Ty>
    ensures { option_copied result ≡ field_place name.now (option_copied place.entry) }
{
    let ty = place?;
    match ty {
        Ty::Struct(fields) => field_type(fields, name),
        Ty::Void => Some(ty),
        _ => None,
    }
}

/// The type of a field, if there is one of the name.
fn field_type<'a>(fields: &'a Fields, name: &Name) -> Option<&'a Ty>
    ensures { option_copied result ≡ field_named name.now fields.now }
{
    for field in fields.as_slice() {
        if *name == field.0 {
            return Some(&field.1);
        }
    }
    None
}
