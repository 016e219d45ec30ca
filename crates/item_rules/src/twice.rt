ghost use Rattle.std.specs.Prelude.{◌≡◌, ◌∷◌, ◌++◌, [], IfOk, List, OnOk};
ghost use Rattle.std.specs.List.{cons_option};
ghost use Rattle.std.specs.Option.{option_copied};
ghost use Rattle.syntax_tree.specs.declared.words.Ident.{Ident as IdentValue};
ghost use Rattle.fault_order.specs.Order.{earlier_of, first_of};
ghost use Rattle.item_rules.specs.Twice.{is_there, twice_behind, twice_if, twice_in};

use fault_order::earlier;
use name_index::NameIndex;
use slint_base::{Fault, Memory, Name, Rule, Span};
use std::alloc::Global;
use syntax_tree::Ident;

/// The fault of a name that is there already.
pub(crate) fn twice_if(is_there: bool, span: Span) -> Option<Fault>
    ensures { result ≡ first_of (twice_if is_there span) }
{
    if is_there {
        Some(Fault {
            rule: Rule::NameTwice,
            span,
        })
    } else {
        None
    }
}

/// Puts a name behind those that are there: the first fault so far.
fn note(seen: &mut NameIndex, so_far: Option<Fault>, name: &Ident) -> Result<Option<Fault>, Memory>
    ensures fault { IfOk result (λ fault. fault ≡ earlier_of so_far (first_of (twice_if (is_there seen.old name.now.name) name.now.span))) }
    ensures names { OnOk result (seen.new ≡ seen.old ++ name.now.name ∷ []) }
{
    let fault = twice_if(seen.contains(&name.name), name.span);
    seen.push(&name.name)?;
    Ok(earlier(so_far, fault))
}

/// The same of a name that may be there: whatever names come behind, they come to what they come to with this one before them.
pub(crate) fn note_if_any(
    seen: &mut NameIndex,
    so_far: Option<Fault>,
    name: Option<&Ident>,
) -> Result<Option<Fault>, Memory>
    ensures { IfOk result (λ fault. (rest : List IdentValue) → earlier_of fault (first_of (twice_behind seen.new rest)) ≡ earlier_of so_far (first_of (twice_behind seen.old (cons_option (option_copied name.entry) rest)))) }
{
    match name {
        Some(name) => note(seen, so_far, name),
        None => Ok(so_far),
    }
}

/// The first fault among names that have to differ.
pub(crate) fn twice_in(alloc: Global, names: &[Ident]) -> Result<Option<Fault>, Memory>
    ensures { IfOk result (λ fault. fault ≡ first_of (twice_in names.now)) }
{
    let mut seen = NameIndex::new(alloc);
    let mut fault = None;
    for name in names {
        fault = note_if_any(&mut seen, fault, Some(name))?;
    }
    Ok(fault)
}
