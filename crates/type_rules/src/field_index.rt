ghost use Rattle.std.specs.Prelude.{◌≡◌, IsTrue};
ghost use Rattle.std.specs.Option.{is_some, option_copied};
ghost use Rattle.value_types.specs.Conversions.{field_named};
ghost use Rattle.element_tables.specs.Rows.{byte_order, is_rising};
ghost use Rattle.type_rules.specs.Orders.{is_below_next};

use slint_base::Name;
use sqlite_items::at;
use value_types::{Fields, Ty};

/// The fields of a struct type, of which one is found by its name. Where their names rise in byte order, as those of every type of a
/// source do, it is found by halving.
#[derive(Drop)]
pub(crate) struct FieldIndex<'a> {
    fields: &'a Fields,
    rises: bool,
    ghost rises_as_told: { rises ≡ is_rising byte_order fields.now },
}

/// Whether a name is below that of the next field, if there is one.
fn is_below_next(name: &Name, next: Option<&(Name, Ty)>) -> bool
    ensures { result ≡ is_below_next name.now (option_copied next.entry) }
{
    match next {
        Some(field) => *name < field.0,
        None => true,
    }
}

/// Whether the names of fields rise in byte order, no two alike.
fn rises(fields: &Fields) -> bool
    ensures { result ≡ is_rising byte_order fields.now }
{
    for (place, field) in fields.as_slice().iter().enumerate() {
        if !is_below_next(&field.0, at(fields.as_slice(), place + 1)) {
            return false;
        }
    }
    true
}

/// The type of the field of a name, if there is one, by a walk along the fields.
fn walked<'a>(name: &Name, fields: &'a Fields) -> Option<&'a Ty>
    ensures { option_copied result ≡ field_named name.now fields.now }
{
    for field in fields.as_slice() {
        if *name == field.0 {
            return Some(&field.1);
        }
    }
    None
}

/// The type of the field of a name, if there is one, by halving.
fn halved<'a>(name: &Name, fields: &'a [(Name, Ty)]) -> Option<&'a Ty>
    requires { IsTrue (is_rising byte_order fields.now) }
    ensures { option_copied result ≡ field_named name.now fields.now }
{
    match fields.binary_search_by(|field| field.0.cmp(name)) {
        Ok(place) => Some(&fields[place].1),
        Err(_) => None,
    }
}

impl<'a> FieldIndex<'a> {
    /// The index of fields.
    pub(crate) fn new(fields: &'a Fields) -> FieldIndex<'a>
        ensures { result.fields.now ≡ fields.now }
    {
        let rises = rises(fields);
        FieldIndex { fields, rises }
    }

    /// The type of the field of a name, if there is one.
    pub(crate) fn find(&self, name: &Name) -> Option<&'a Ty>
        ensures { option_copied result ≡ field_named name.now self.now.fields.now }
    {
        if self.rises {
            halved(name, self.fields.as_slice())
        } else {
            walked(name, self.fields)
        }
    }

    /// Whether there is a field of a name.
    pub(crate) fn has(&self, name: &Name) -> bool
        ensures { result ≡ is_some (field_named name.now self.now.fields.now) }
    {
        self.find(name).is_some()
    }
}
