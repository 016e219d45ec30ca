ghost use Rattle.std.specs.Prelude.{◌≡◌};
ghost use Rattle.child_rules.specs.Faults.{fault_if, grid_place_if, misplaced_if};
ghost use Rattle.fault_order.specs.Order.{first_of};

use slint_base::{Fault, Rule, Span};

/// The fault of a rule that is broken at a stretch, where a test says so.
fn fault_if(test: bool, rule: Rule, span: Span) -> Option<Fault>
    ensures { result ≡ first_of (fault_if test rule span) }
{
    if test {
        Some(Fault { rule, span })
    } else {
        None
    }
}

/// The fault of children where they may not be.
pub(crate) fn misplaced_if(test: bool, span: Span) -> Option<Fault>
    ensures { result ≡ first_of (misplaced_if test span) }
{
    fault_if(test, Rule::ChildrenMisplaced, span)
}

/// The fault of what may not be in or out of a grid.
pub(crate) fn grid_place_if(test: bool, span: Span) -> Option<Fault>
    ensures { result ≡ first_of (grid_place_if test span) }
{
    fault_if(test, Rule::GridPlace, span)
}
