ghost use Rattle.std.specs.Prelude.{◌≡◌, ◌↔◌, IsTrue, List, Option, Contains, ◌++◌};
ghost use Rattle.slint_base.specs.declared.faults.Fault.{Fault as FaultValue};
ghost use Rattle.fault_order.specs.Order.{FirstIfAny, IsFirst, NotBehind, earlier_fault, earlier_of, first_of};

use slint_base::Fault;
use std::cmp::Ordering;

/// Whether a fault doesn't stand behind another one.
pub fn is_not_behind(a: &Fault, b: &Fault) -> bool
    ensures { IsTrue result ↔ NotBehind a.now b.now }
{
    let left = [
        a.span.file,
        a.span.start,
        a.rule.number() as u32,
        a.span.end,
    ];
    let right = [
        b.span.file,
        b.span.start,
        b.rule.number() as u32,
        b.span.end,
    ];
    left.as_slice().cmp(right.as_slice()) != Ordering::Greater
}

/// Of two faults the one that is told first.
fn earlier_fault(a: Fault, b: Fault) -> Fault
    ensures { result ≡ earlier_fault a b }
{
    if is_not_behind(&a, &b) { a } else { b }
}

/// Of two faults that may be there the one that is told first.
pub fn earlier(a: Option<Fault>, b: Option<Fault>) -> Option<Fault>
    ensures { result ≡ earlier_of a b }
{
    let Some(first) = a else {
        return b;
    };
    let Some(second) = b else {
        return a;
    };
    Some(earlier_fault(first, second))
}

/// Laws, which do nothing when they are called: the first fault with a property is one fault; and the first of a list of faults is the first
/// of those that stand in it.
pub fn one_first_fault()
    ensures one_first { (xs : List FaultValue) (f g : FaultValue) → IsFirst (λ x. Contains xs x) f → IsFirst (λ x. Contains xs x) g → f ≡ g }
    ensures first_in_list { (xs : List FaultValue) → FirstIfAny (λ x. Contains xs x) (first_of xs) }
    ensures first_of_both { (xs ys : List FaultValue) → first_of (xs ++ ys) ≡ earlier_of (first_of xs) (first_of ys) }
{}
