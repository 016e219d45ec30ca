ghost use Rattle.std.specs.Prelude.{◌≡◌, ◌≢◌, [], ◌∷◌, IfOk, MatchOption, length, reverse, Ok};
ghost use Rattle.expr_rules.specs.Denotations.{denoted};
ghost use Rattle.expr_rules.specs.Own.{in_parentheses, of_one};

use crate::making::{denoted, standing};
use crate::{Denoted, Judged};
use slint_base::{Fault, Memory};
use sqlite_items::Items;
use std::alloc::Global;

/// The same items from the last one to the first, from where they can be taken one by one.
pub(crate) fn reversed<T: Drop>(alloc: Global, mut items: Items<T>) -> Result<Items<T>, Memory>
    ensures { IfOk result (λ made. made ≡ reverse items) }
{
    let mut made = Items::new(alloc);
    while let Some(item) = items.pop() {
        made.push(item)?;
    }
    Ok(made)
}

/// The part of a node that has just one.
pub(crate) fn one_part(mut parts: Items<Judged>) -> Option<Judged>
    ensures { MatchOption result (length parts ≢ 1) (λ x. parts ≡ x ∷ []) }
{
    let last = parts.pop();
    if parts.is_empty() { last } else { None }
}

/// The parts of a node that has just two.
pub(crate) fn two_parts(mut parts: Items<Judged>) -> Option<(Judged, Judged)>
    ensures { MatchOption result (length parts ≢ 2) (λ p. parts ≡ p.0 ∷ p.1 ∷ []) }
{
    let Some(last) = parts.pop() else {
        return None;
    };
    match one_part(parts) {
        Some(first) => Some((first, last)),
        None => None,
    }
}

/// The parts of a node that has just three.
pub(crate) fn three_parts(mut parts: Items<Judged>) -> Option<(Judged, Judged, Judged)>
    ensures { MatchOption result (length parts ≢ 3) (λ p. parts ≡ p.0 ∷ p.1 ∷ p.2 ∷ []) }
{
    let Some(last) = parts.pop() else {
        return None;
    };
    match two_parts(parts) {
        Some((first, second)) => Some((first, second, last)),
        None => None,
    }
}

/// A node that comes to what its one part does.
#[tactic(auto, using(crate::proofs::PartCounts::not_one))]
pub(crate) fn own_only(parts: Items<Judged>) -> Judged
    ensures { Ok result ≡ of_one (λ x. Ok x) parts }
{
    match one_part(parts) {
        Some(x) => x,
        None => Judged::Fresh,
    }
}

/// What is in parentheses is what it is, but no plain path.
fn in_parentheses(alloc: Global, part: Judged) -> Result<Judged, Memory>
    ensures { IfOk result (λ judged. judged ≡ in_parentheses (denoted part)) }
{
    let Denoted { meaning, name, .. } = denoted(alloc, part)?;
    standing(alloc, meaning, name, false)
}

/// An expression in parentheses.
#[tactic(auto, using(crate::proofs::PartCounts::not_one))]
pub(crate) fn own_paren(
    alloc: Global,
    parts: Items<Judged>,
) -> Result<Result<Judged, Fault>, Memory>
    ensures { IfOk result (λ judged. judged ≡ of_one (λ x. Ok (in_parentheses (denoted x))) parts) }
{
    match one_part(parts) {
        Some(x) => {
            let inside = in_parentheses(alloc, x)?;
            Ok(Ok(inside))
        }
        None => Ok(Ok(Judged::Fresh)),
    }
}
