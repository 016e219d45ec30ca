ghost use Rattle.std.specs.Prelude.{◌≡◌, ◌∷◌, ◌⊎◌, [], IfOk};
ghost use Rattle.fault_order.specs.Order.{NotBehind};
ghost use Rattle.typed_tree.specs.Scopes.{ScopeValue};
ghost use Rattle.expr_types.specs.Nodes.{Node};
ghost use Rattle.expr_types.specs.Verdicts.{Adds, Seen, Tells};

use expr_rules::Judged;
use fault_order::is_not_behind;
use slint_base::{Fault, Memory};
use sqlite_items::Items;
use std::alloc::Global;

/// What a node comes to, or the first fault in it.
pub(crate) type Verdict = Result<Judged, Fault>;

/// What nodes come to, or the first fault in any of them.
pub(crate) type Seen = Result<Items<Judged>, Fault>;

/// Of two faults the one that is told first.
pub(crate) fn earlier(a: Fault, b: Fault) -> Fault
    ensures before_a { NotBehind result a }
    ensures before_b { NotBehind result b }
    ensures chosen { (result ≡ a) ⊎ (result ≡ b) }
{
    if is_not_behind(&a, &b) { a } else { b }
}

/// What is told of one node alone.
pub(crate) fn only(alloc: Global, verdict: Verdict) -> Result<Seen, Memory>
    ensures { IfOk result (λ seen. (s : ScopeValue) (n : Node) → Tells s n verdict → Seen s (n ∷ []) seen) }
{
    let seen = add(Ok(Items::new(alloc)), verdict)?;
    Ok(seen)
}

/// What is told of one more node is put behind what is told of those before it. Of two faults the first one is kept.
pub(crate) fn add(seen: Seen, verdict: Verdict) -> Result<Seen, Memory>
    ensures { IfOk result (λ all. (s : ScopeValue) (n : Node) → Tells s n verdict → Adds s (n ∷ []) seen all) }
{
    match seen {
        Ok(judged) => add_to_all(judged, verdict),
        Err(fault) => Ok(Err(add_to_fault(fault, verdict))),
    }
}

/// What is told of one more node behind nodes that all come to something.
fn add_to_all(before: Items<Judged>, verdict: Verdict) -> Result<Seen, Memory>
    ensures { IfOk result (λ all. (s : ScopeValue) (n : Node) → Tells s n verdict → Adds s (n ∷ []) (Ok before) all) }
{
    let one = match verdict {
        Ok(one) => one,
        Err(fault) => return Ok(Err(fault)),
    };
    let mut all = before;
    all.push(one)?;
    Ok(Ok(all))
}

/// The fault that is told first where one is known and one more node is judged.
fn add_to_fault(known: Fault, verdict: Verdict) -> Fault
    ensures { (s : ScopeValue) (n : Node) → Tells s n verdict → Adds s (n ∷ []) (Err known) (Err result) }
{
    let Err(fault) = verdict else {
        return known;
    };
    earlier(known, fault)
}
