//! What is done to one node by value.
ghost use Rattle.std.specs.Prelude.{◌≡◌};
ghost use Rattle.dep_list.specs.Lists.{link_of, with_link, next_to, prev_to, spare_node};

use crate::node::{Link, Node, Place, Side};

// A spare node above `below`.
pub(crate) fn spare_node(below: Option<Place>) -> Node
    ensures { result ≡ spare_node below }
{
    Node {
        linked: false,
        reader: 0,
        point: 0,
        by_reader: Link {
            prev: None,
            next: below,
        },
        by_point: Link {
            prev: None,
            next: None,
        },
    }
}

// The node, which leads on to `to` on this side.
pub(crate) fn leading_on(mut node: Node, side: Side, to: Option<Place>) -> Node
    ensures { result ≡ with_link side (next_to to) node }
{
    match side {
        Side::Reader => node.by_reader.next = to,
        Side::Point => node.by_point.next = to,
    }
    node
}

// The node, which leads back to `to` on this side.
pub(crate) fn leading_back(mut node: Node, side: Side, to: Option<Place>) -> Node
    ensures { result ≡ with_link side (prev_to to) node }
{
    match side {
        Side::Reader => node.by_reader.prev = to,
        Side::Point => node.by_point.prev = to,
    }
    node
}
