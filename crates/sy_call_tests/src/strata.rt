ghost use Rattle.std.specs.Prelude.{◌<◌, IsTrue};
ghost use Rattle.std.specs.List.{All};

use std::alloc::{AllocError, Global};
use std::test::Fail;
use sy_base::List;
use sy_strata::{Edge, OrderFault, order};

/// The edges of these pairs, each of a node and of one that it needs.
fn edges_of(alloc: Global, pairs: &[(u32, u32)]) -> Result<Vec<Edge>, AllocError> {
    pairs
        .iter()
        .map(|pair| Edge {
            node: pair.0,
            needs: pair.1,
        })
        .collect(alloc)
}

fn are_below(n: u32, edges: &[Edge]) -> bool
    ensures { IsTrue result → All (λ edge. (edge.node < n) × (edge.needs < n)) edges.now }
{
    edges.iter().all(|edge| edge.node < n && edge.needs < n)
}

/// The order, or else the cycle.
fn told(alloc: Global, n: u32, edges: &[Edge]) -> Result<String, Fail> {
    if n > 2001 || !are_below(n, edges) {
        return Err(Fail::from("an end that is no node"));
    }
    Ok(match order(alloc, n, edges) {
        Ok(list) => format!(in alloc; "order {:?}", list.items())?,
        Err(OrderFault::Cycle(list)) => format!(in alloc; "cycle {:?}", list.items())?,
        Err(OrderFault::Memory) => format!(in alloc; "memory")?,
    })
}

/// The order, where there is one.
fn in_order(alloc: Global, n: u32, edges: &[Edge]) -> Result<List<u32>, Fail> {
    if n > 2001 || !are_below(n, edges) {
        return Err(Fail::from("an end that is no node"));
    }
    Ok(order(alloc, n, edges)?)
}

/// Each row: the number of nodes, pairs of a node and one that it needs, and what is told.
#[test]
fn orders_nodes(rt: HostRuntime) -> Result<(), Fail> {
    let alloc = rt.alloc();
    let rows: [(u32, &[(u32, u32)], &str); 14] = [
        (0, &[], "order []"),
        (1, &[], "order [0]"),
        (3, &[], "order [0, 1, 2]"),
        (3, &[(0, 1), (1, 2)], "order [2, 1, 0]"),
        (3, &[(2, 1), (1, 0)], "order [0, 1, 2]"),
        (4, &[(0, 3)], "order [1, 2, 3, 0]"),
        (4, &[(0, 2), (0, 2), (1, 0)], "order [2, 0, 1, 3]"),
        (
            5,
            &[(1, 4), (2, 1), (3, 1), (0, 3)],
            "order [4, 1, 2, 3, 0]",
        ),
        (1, &[(0, 0)], "cycle [0]"),
        (3, &[(1, 1), (2, 0)], "cycle [1]"),
        (6, &[(4, 5), (5, 4), (1, 3), (3, 1)], "cycle [1, 3]"),
        (4, &[(0, 2), (2, 3), (3, 2)], "cycle [2, 3]"),
        (5, &[(1, 4), (4, 2), (2, 4), (0, 1)], "cycle [4, 2]"),
        (
            5,
            &[(1, 3), (1, 0), (3, 4), (3, 2), (4, 1), (2, 1), (1, 2)],
            "cycle [1, 2]",
        ),
    ];
    for (n, pairs, want) in rows {
        let edges = edges_of(alloc, pairs)?;
        let text = told(alloc, n, &edges)?;
        assert_eq!(rt; text.as_str(), want, "{n} {pairs:?}");
    }
    Ok(())
}

/// In a chain each node but the last one needs the next one.
#[test]
fn orders_the_longest_chain(rt: HostRuntime) -> Result<(), Fail> {
    let alloc = rt.alloc();
    let mut chain = Vec::new(alloc);
    for node in 0..2000 {
        chain.push(Edge {
            node,
            needs: node + 1,
        })?;
    }
    let list = in_order(alloc, 2001, &chain)?;
    assert_eq!(rt; list.items().len(), 2001);
    for (place, node) in list.items().iter().enumerate() {
        assert_eq!(rt; *node as usize + place, 2000);
    }
    Ok(())
}

/// The first node needs all the others.
#[test]
fn orders_a_node_with_2000_needs(rt: HostRuntime) -> Result<(), Fail> {
    let alloc = rt.alloc();
    let mut star = Vec::new(alloc);
    for needs in 1..2001 {
        star.push(Edge { node: 0, needs })?;
    }
    let list = in_order(alloc, 2001, &star)?;
    assert_eq!(rt; list.items().len(), 2001);
    for (place, node) in list.items().iter().enumerate() {
        let want = if place == 2000 { 0 } else { place + 1 };
        assert_eq!(rt; *node as usize, want);
    }
    Ok(())
}
