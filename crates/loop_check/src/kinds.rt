ghost use Rattle.std.specs.Prelude.{◌≡◌};
ghost use Rattle.std.specs.Option.{option_copied};
ghost use Rattle.loop_check.specs.Purity.{is_impure, is_inferred, is_pure, kind_of, members_of, rule_at};

use crate::{Home, Place, Routine};
use slint_base::Rule;
use syntax_tree::Access;
use typed_tree::{Member, MemberKind, TypedTree};

/// The members that are declared in a component or a global.
fn members_of(tree: &TypedTree, home: Home) -> &[Member]
    ensures { result.now ≡ members_of tree.now home }
{
    match home {
        Home::Component(component) => {
            match tree.comps.get(component) {
                Some(comp) => comp.outline.members.as_slice(),
                None => &[],
            }
        }
        Home::Global(global) => {
            match tree.globals.get(global) {
                Some(global) => global.outline.members.as_slice(),
                None => &[],
            }
        }
    }
}

/// What a declared callback or function is, if it is there.
fn kind_of(tree: &TypedTree, routine: Routine) -> Option<&MemberKind>
    ensures { option_copied result ≡ kind_of tree.now routine }
{
    match members_of(tree, routine.home).get(routine.number) {
        Some(member) => Some(&member.kind),
        None => None,
    }
}

/// Whether it is marked `pure`.
fn is_pure(kind: Option<&MemberKind>) -> bool
    ensures { result ≡ is_pure (option_copied kind.entry) }
{
    match kind {
        Some(MemberKind::Callback(is_marked, _)) => *is_marked,
        Some(MemberKind::Function(is_marked, _, _)) => *is_marked,
        _ => false,
    }
}

/// Whether it is impure whatever it runs: a callback without `pure`, or a function without `pure` that others may call.
fn is_impure(kind: Option<&MemberKind>) -> bool
    ensures { result ≡ is_impure (option_copied kind.entry) }
{
    match kind {
        Some(MemberKind::Callback(is_marked, _)) => !*is_marked,
        Some(MemberKind::Function(false, Access::Public, _)) => true,
        Some(MemberKind::Function(false, Access::Protected, _)) => true,
        _ => false,
    }
}

/// Whether it depends on what it does whether it is impure: a function without marks.
fn is_inferred(kind: Option<&MemberKind>) -> bool
    ensures { result ≡ is_inferred (option_copied kind.entry) }
{
    match kind {
        Some(MemberKind::Function(false, Access::None, _)) => true,
        _ => false,
    }
}

/// Whether a callback or function is impure by its marks.
pub(crate) fn is_impure_by_marks(tree: &TypedTree, routine: Routine) -> bool
    ensures { result ≡ is_impure (kind_of tree.now routine) }
{
    is_impure(kind_of(tree, routine))
}

/// Whether a callback or function is a function without marks.
pub(crate) fn has_no_mark(tree: &TypedTree, routine: Routine) -> bool
    ensures { result ≡ is_inferred (kind_of tree.now routine) }
{
    is_inferred(kind_of(tree, routine))
}

/// The rule that an impure act breaks at a place, if it breaks any.
pub(crate) fn rule_at(tree: &TypedTree, place: Place) -> Option<Rule>
    ensures { result ≡ rule_at tree.now place }
{
    match place {
        Place::Value => Some(Rule::ImpureBinding),
        Place::Run(routine) => {
            if is_pure(kind_of(tree, routine)) {
                Some(Rule::PureCallsImpure)
            } else {
                None
            }
        }
    }
}
