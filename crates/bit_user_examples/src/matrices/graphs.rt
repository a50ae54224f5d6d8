//! Graphs that are closed, beside a search by hand.
ghost use Rattle.std.specs.Prelude.{◌<◌};

use crate::{check, ok};
use bit_matrix::Matrix;
use std::alloc::{AllocError, Global};
use std::process::Abort;

// A graph of ten nodes: a circle over 0, 1 and 2, a way from it over 3 and 4 to the circle of 5 and 6, node 7, which
// leads into that way, node 8, which leads to itself, and node 9 alone.
const EDGES: [(usize, usize); 10] = [
    (0, 1),
    (1, 2),
    (2, 0),
    (2, 3),
    (3, 4),
    (4, 5),
    (5, 6),
    (6, 5),
    (7, 4),
    (8, 8),
];

// Where its paths lead, found by hand: digit `to` from the right of number `from`.
const PATHS: [u16; 10] = [
    0b0001111111,
    0b0001111111,
    0b0001111111,
    0b0001110000,
    0b0001100000,
    0b0001100000,
    0b0001100000,
    0b0001110000,
    0b0100000000,
    0b0000000000,
];

// Where paths from a node lead, by a search in depth that takes each node up once.
fn reached_from(alloc: Global, start: usize) -> Result<[bool; 10], AllocError> {
    let mut reached = [false; 10];
    let mut open = Vec::new(alloc);
    open.push(start)?;
    for _ in 0..=reached.len() {
        let Some(node) = open.pop() else {
            return Ok(reached);
        };
        for (from, to) in EDGES {
            if from == node
                && let Some(place) = reached.get_mut(to)
                && !*place
            {
                *place = true;
                open.push(to)?;
            }
        }
    }
    Ok(reached)
}

// That the edges of a closed graph from a node are those that a search in depth finds, and those found by hand.
fn leads(rt: &(impl Abort + AllocGlobal), graph: &Matrix, from: usize)
    requires { from < 10 }
{
    let reached = ok(rt, reached_from(rt.alloc(), from));
    assert!(rt; graph.rows() == 10);
    assert!(rt; graph.columns() == 10);
    for to in 0..10 {
        let edge = graph.get(from, to);
        check(rt, edge == reached[to]);
        check(rt, edge == (PATHS[from] >> to & 1 == 1));
    }
}

#[test]
fn paths_of_a_graph(rt: HostRuntime) {
    let mut graph = ok(&rt, Matrix::new(rt.alloc(), 10, 10));
    for (from, to) in EDGES {
        assert!(rt; from < graph.rows());
        assert!(rt; to < graph.columns());
        graph.set(from, to, true);
    }
    assert!(rt; graph.rows() == graph.columns());
    graph.close();
    for from in 0..10 {
        leads(&rt, &graph, from);
    }
}
