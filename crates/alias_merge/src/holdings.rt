ghost use Rattle.std.specs.Prelude.{◌≡◌, slice_get};
ghost use Rattle.alias_merge.specs.Candidates.{candidate_at, depth_in, holding_of, repeaters_in};

use crate::Candidate;
use expanded_tree::{Expanded, Holder};
use slint_base::Span;
use sqlite_items::at;

/// What all items of a holder have in common.
#[derive(Clone, Copy)]
pub struct Holding {
    pub holder: Holder,
    /// The body from which its items name members.
    pub body: usize,
    /// How many bodies are around that one.
    pub depth: usize,
    /// How many repeaters are around the holder's element, its own included.
    pub repeaters: usize,
}

impl Holding {
    /// What the items of a holder have in common.
    pub(crate) fn of(expanded: &Expanded, holder: Holder) -> Holding
        ensures { result ≡ holding_of expanded.now holder }
    {
        match holder {
            Holder::Global(global) => Holding {
                holder: Holder::Global(global),
                body: 0,
                depth: 0,
                repeaters: 0,
            },
            Holder::Element(spot) => Holding {
                holder: Holder::Element(spot),
                body: spot.body,
                depth: depth_in(expanded, spot.body),
                repeaters: repeaters_in(expanded, expanded.element_at(spot.body, spot.element)),
            },
        }
    }

    /// A candidate for a member that has a number.
    pub(crate) fn candidate_at(
        &self,
        item: usize,
        span: Span,
        member: Option<usize>,
    ) -> Option<Candidate>
        ensures { result ≡ candidate_at self.now item span member }
    {
        match member {
            Some(member) => Some(Candidate {
                member,
                holder: self.holder,
                item,
                depth: self.depth,
                span,
                repeaters: self.repeaters,
            }),
            None => None,
        }
    }
}

/// How many bodies are around a body.
pub(crate) fn depth_in(expanded: &Expanded, body: usize) -> usize
    ensures { result ≡ depth_in (slice_get expanded.now.bodies body) }
{
    match at(expanded.bodies(), body) {
        Some(body) => body.depth,
        None => 0,
    }
}

/// How many repeaters are around an element.
pub(crate) fn repeaters_in(expanded: &Expanded, element: usize) -> usize
    ensures { result ≡ repeaters_in (slice_get expanded.now.elements element) }
{
    match at(expanded.elements(), element) {
        Some(element) => element.repeaters,
        None => 0,
    }
}
