ghost use Rattle.std.specs.Prelude.{◌≡◌, ◌∷◌, ◌++◌, [], IfOk, Err, Ok};
ghost use Rattle.fault_order.specs.Order.{earlier_fault};
ghost use Rattle.item_types.specs.Judging.{added};

use fault_order::earlier;
use slint_base::{Fault, Memory};
use sqlite_items::Items;

/// Of two faults the one that is told first.
pub(crate) fn earlier_fault(a: Fault, b: Fault) -> Fault
    ensures { result ≡ earlier_fault a b }
{
    match earlier(Some(a), Some(b)) {
        Some(fault) => fault,
        None => unreachable!(),
    }
}

/// What is told of things, and of one more behind them.
pub(crate) fn add<T: Drop>(
    seen: Result<Items<T>, Fault>,
    told: Result<T, Fault>,
) -> Result<Result<Items<T>, Fault>, Memory>
    ensures { IfOk result (λ all. all ≡ added seen told) }
{
    match seen {
        Ok(all) => add_to_all(all, told),
        Err(fault) => Ok(Err(first_fault(fault, told))),
    }
}

/// The same, where no rule is broken in the things before.
fn add_to_all<T: Drop>(
    all: Items<T>,
    told: Result<T, Fault>,
) -> Result<Result<Items<T>, Fault>, Memory>
    ensures { IfOk result (λ more. more ≡ added (Ok all) told) }
{
    let one = match told {
        Ok(one) => one,
        Err(fault) => return Ok(Err(fault)),
    };
    let mut all = all;
    all.push(one)?;
    Ok(Ok(all))
}

/// The fault that is told first, where one is known.
fn first_fault<T: Drop>(known: Fault, told: Result<T, Fault>) -> Fault
    ensures { Err result ≡ added (Err known) told }
{
    match told {
        Ok(_) => known,
        Err(fault) => earlier_fault(known, fault),
    }
}
