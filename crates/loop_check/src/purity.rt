ghost use Rattle.std.specs.Prelude.{◌≡◌, IfOk};
ghost use Rattle.std.specs.List.{flat_map};
ghost use Rattle.fault_order.specs.Order.{FirstIfAny, first_of};
ghost use Rattle.loop_check.specs.Graphs.{fault_of, faults_in, faults_of};
ghost use Rattle.loop_check.specs.Purity.{ChecksPurity, PurityFault};

use crate::bodies::bodies_in;
use crate::graphs::Spread;
use crate::kinds::rule_at;
use crate::{Act, Body};
use fault_order::earlier;
use slint_base::{End, Fault, Memory, Rule};
use std::alloc::Global;
use typed_tree::TypedTree;

/// Whether a source changes nothing where it may not: in the value of a binding or of a state's change, in a condition or a model
/// (rule 50), in a function that is marked `pure` or a handler of a callback that is (rule 51). Assignments change something, and so do
/// calls of what is built in and of what is impure: a callback without `pure`, a function without `pure` that is `public` or `protected`,
/// or that does such a thing itself. The first fault is told, at its statement or call. The cost is in proportion to the tree.
pub fn check_purity(alloc: Global, tree: &TypedTree) -> Result<(), End<Fault>>
    ensures { ChecksPurity tree.now result }
{
    match purity_fault(alloc, tree) {
        Ok(None) => Ok(()),
        Ok(Some(fault)) => Err(End::Fault(fault)),
        Err(_) => Err(End::Memory),
    }
}

/// The first fault, if there is one.
fn purity_fault(alloc: Global, tree: &TypedTree) -> Result<Option<Fault>, Memory>
    ensures { IfOk result (λ fault. FirstIfAny (PurityFault tree.now) fault) }
{
    let bodies = bodies_in(alloc, tree)?;
    let spread = Spread::new(alloc, tree, bodies.as_slice())?;
    Ok(first_fault(tree, &spread, bodies.as_slice()))
}

/// The first fault of bodies.
fn first_fault(tree: &TypedTree, spread: &Spread, bodies: &[Body]) -> Option<Fault>
    ensures { result ≡ first_of (faults_in tree.now spread.now bodies.now) }
{
    let mut first = None;
    for body in bodies {
        first = earlier(first, body_fault(tree, spread, body));
    }
    first
}

/// The first fault of a body.
fn body_fault(tree: &TypedTree, spread: &Spread, body: &Body) -> Option<Fault>
    ensures { result ≡ first_of (faults_of tree.now spread.now body.now) }
{
    match rule_at(tree, body.place) {
        Some(rule) => acts_fault(spread, rule, body.acts.as_slice()),
        None => None,
    }
}

/// The first fault of acts that break a rule where they are impure.
fn acts_fault(spread: &Spread, rule: Rule, acts: &[Act]) -> Option<Fault>
    ensures { result ≡ first_of (flat_map (fault_of spread.now rule) acts.now) }
{
    let mut first = None;
    for act in acts {
        first = earlier(first, act_fault(spread, rule, act));
    }
    first
}

/// The fault of an act, if it is impure.
fn act_fault(spread: &Spread, rule: Rule, act: &Act) -> Option<Fault>
    ensures { result ≡ first_of (fault_of spread.now rule act.now) }
{
    if spread.is_reached(act.calls) {
        Some(Fault {
            rule,
            span: act.span,
        })
    } else {
        None
    }
}
