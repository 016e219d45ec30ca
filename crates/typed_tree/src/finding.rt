ghost use Rattle.std.specs.Prelude.{◌≡◌, IfOk, position, slice_get};
ghost use Rattle.std.specs.Option.{option_copied};
ghost use Rattle.std.specs.Str.{bytes_eq};
ghost use Rattle.name_index.specs.Places.{places_of};
ghost use Rattle.typed_tree.specs.Finding.{declared_in, found_with, list_in};

use crate::{Declared, FileName, Found, Member, MemberRef, Owner};
use name_index::NameIndex;
use slint_base::{Memory, Name};
use sqlite_items::at;
use std::alloc::Global;

/// A declared member as one that is found.
pub(crate) fn declared_found(
    alloc: Global,
    reference: MemberRef,
    owner: Owner,
    member: Option<&Member>,
) -> Result<Option<Found>, Memory>
    ensures { IfOk result (λ found. found ≡ found_with reference owner (option_copied member.entry)) }
{
    match member {
        Some(member) => {
            let kind = member.kind.copy(alloc)?;
            Ok(Some(Found {
                member: reference,
                kind,
                owner,
            }))
        }
        None => Ok(None),
    }
}

/// What the name of a number stands for.
pub(crate) fn declared_at(names: &[FileName], number: usize) -> Option<&Declared>
    ensures { option_copied result ≡ declared_in (slice_get names.now number) }
{
    match at(names, number) {
        Some(name) => Some(&name.declared),
        None => None,
    }
}

/// The first place of a name in one of some lists.
pub(crate) fn first_in(lists: &[NameIndex], number: usize, name: &Name) -> Option<usize>
    ensures { result ≡ position (λ x. bytes_eq x name.now) (list_in (slice_get lists.now number)) }
{
    match at(lists, number) {
        Some(list) => list.first(name),
        None => None,
    }
}

/// All places of a name in one of some lists.
pub(crate) fn places_in<'a>(lists: &'a [NameIndex], number: usize, name: &Name) -> &'a [usize]
    ensures { result.now ≡ places_of name.now (list_in (slice_get lists.now number)) }
{
    match at(lists, number) {
        Some(list) => list.places(name),
        None => &[],
    }
}
