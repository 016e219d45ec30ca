use crate::{Graph, components, find_circles, ranks_of, reached_from};
use slint_base::Memory;
use std::alloc::Global;
use std::test::Fail;

/// Two circles, 0 to 1 and 3 to 5, with 2 on the way from one to the other, 6 behind the second, and 7 with an edge to itself.
const CIRCLES: [(usize, usize); 10] = [
    (0, 1),
    (1, 0),
    (1, 2),
    (2, 3),
    (3, 4),
    (4, 5),
    (5, 3),
    (5, 6),
    (7, 7),
    (7, 2),
];

/// A graph of the edges that lie between its nodes.
fn drawn(alloc: Global, nodes: usize, edges: &[(usize, usize)]) -> Result<Graph, Memory> {
    let mut graph = Graph::new(alloc, nodes);
    for edge in edges {
        if edge.0 < graph.nodes() && edge.1 < graph.nodes() {
            graph.push(edge.0, edge.1)?;
        }
    }
    Ok(graph)
}

#[test]
fn what_lies_on_circles(rt: HostRuntime) -> Result<(), Fail> {
    let graph = drawn(rt.alloc(), 8, CIRCLES.as_slice())?;
    let circles = find_circles(rt.alloc(), &graph)?;
    assert_eq!(rt;
        circles.nodes.as_slice(),
        [true, true, false, true, true, true, false, true].as_slice()
    );
    assert_eq!(rt;
        circles.edges.as_slice(),
        [
            true, true, false, false, true, true, true, false, true, false
        ]
        .as_slice()
    );
    assert!(rt; ranks_of(rt.alloc(), &graph)?.is_none());
    Ok(())
}

#[test]
fn labels_fall_along_edges(rt: HostRuntime) -> Result<(), Fail> {
    let graph = drawn(rt.alloc(), 8, CIRCLES.as_slice())?;
    let labels = components(rt.alloc(), &graph)?;
    assert_eq!(rt; labels.as_slice(), [3, 3, 2, 1, 1, 1, 0, 4].as_slice());
    Ok(())
}

#[test]
fn ranks_are_longest_walks(rt: HostRuntime) -> Result<(), Fail> {
    let graph = drawn(
        rt.alloc(),
        5,
        [(0, 1), (0, 2), (2, 1), (1, 3), (2, 3)].as_slice(),
    )?;
    let ranks = ranks_of(rt.alloc(), &graph)?.ok_or("a circle")?;
    assert_eq!(rt; ranks.as_slice(), [3, 1, 2, 0, 0].as_slice());
    Ok(())
}

#[test]
fn what_is_reached(rt: HostRuntime) -> Result<(), Fail> {
    let graph = drawn(rt.alloc(), 8, CIRCLES.as_slice())?;
    let marks = [false, false, false, false, true, false, false, true];
    if marks.len() == graph.nodes() {
        let reached = reached_from(rt.alloc(), &graph, marks.as_slice())?;
        assert_eq!(rt;
            reached.as_slice(),
            [false, false, true, true, true, true, true, true].as_slice()
        );
    }
    Ok(())
}
