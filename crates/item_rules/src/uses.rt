ghost use Rattle.std.specs.Prelude.{◌≡◌};
ghost use Rattle.std.specs.Option.{option_copied};
ghost use Rattle.fault_order.specs.Order.{first_of};
ghost use Rattle.item_rules.specs.Uses.{breach, callback_breach, kind_breach, left_mark, mark_of_kind, property_breach, told_at, unless};

use slint_base::{Fault, Rule, Span};
use syntax_tree::Mark;
use typed_tree::{Found, MemberKind, Site, bindable, is_inside, linkable, readable};

/// How a name outside expressions uses a member.
#[derive(Clone, Copy)]
pub enum Use {
    /// Its value is bound, also while a state holds.
    Bind,
    /// It is watched by `changed`.
    Watch,
    /// It is the left side of a link.
    LinkLeft,
    /// It is the right side of a link, whose left side has this mark.
    LinkRight(Mark),
    /// It is a callback that is handled.
    Handle,
}

/// The rule that a use breaks which has to be allowed.
fn unless(is_allowed: bool) -> Option<Rule>
    ensures { result ≡ unless is_allowed }
{
    if is_allowed {
        None
    } else {
        Some(Rule::Visibility)
    }
}

/// The rule that a body breaks by a use of a property.
fn property_breach(how: Use, is_inside: bool, mark: Mark) -> Option<Rule>
    ensures { result ≡ property_breach how is_inside mark }
{
    match how {
        Use::Bind => unless(bindable(is_inside, mark)),
        Use::Watch => unless(readable(is_inside, mark)),
        Use::LinkLeft => unless(bindable(is_inside, mark)),
        Use::LinkRight(left) => unless(linkable(is_inside, left, mark)),
        Use::Handle => Some(Rule::UnknownName),
    }
}

/// The rule that a use of a callback breaks.
fn callback_breach(how: Use) -> Option<Rule>
    ensures { result ≡ callback_breach how }
{
    match how {
        Use::Bind => Some(Rule::UnknownName),
        Use::Watch => Some(Rule::UnknownName),
        Use::LinkLeft => None,
        Use::LinkRight(_) => None,
        Use::Handle => None,
    }
}

/// The rule that a body breaks by a use of a member of some kind.
fn kind_breach(how: Use, is_inside: bool, kind: &MemberKind) -> Option<Rule>
    ensures { result ≡ kind_breach how is_inside kind.now }
{
    match kind {
        MemberKind::Property(mark, _) => property_breach(how, is_inside, *mark),
        MemberKind::Callback(_, _) => callback_breach(how),
        MemberKind::Function(_, _, _) => Some(Rule::UnknownName),
    }
}

/// The rule that a body breaks by a use of a member, if it is there.
pub(crate) fn breach(here: Site, how: Use, found: Option<&Found>) -> Option<Rule>
    ensures { result ≡ breach here how (option_copied found.entry) }
{
    match found {
        Some(found) => kind_breach(how, is_inside(here, found.owner), &found.kind),
        None => Some(Rule::UnknownName),
    }
}

/// The fault of a rule that is broken, if one is.
pub(crate) fn told_at(span: Span, rule: Option<Rule>) -> Option<Fault>
    ensures { result ≡ first_of (told_at span rule) }
{
    match rule {
        Some(rule) => Some(Fault { rule, span }),
        None => None,
    }
}

/// The mark of a member; what is no property has none.
fn mark_of_kind(kind: &MemberKind) -> Mark
    ensures { result ≡ mark_of_kind kind.now }
{
    match kind {
        MemberKind::Property(mark, _) => *mark,
        MemberKind::Callback(_, _) => Mark::None,
        MemberKind::Function(_, _, _) => Mark::None,
    }
}

/// The mark of a link's left side.
pub(crate) fn left_mark(found: Option<&Found>) -> Mark
    ensures { result ≡ left_mark (option_copied found.entry) }
{
    match found {
        Some(found) => mark_of_kind(&found.kind),
        None => Mark::None,
    }
}
