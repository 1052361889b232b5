ghost use Rattle.std.specs.Prelude.{◌≡◌, ◌<◌, suc, false, [], None, IfOk, IfSome, find, length, min, slice_index_or, unwrap_or};
ghost use Rattle.std.specs.List.{All};
ghost use Rattle.sy_core.specs.Orders.{numbers_below, order, cycle_on, named_cycle};
ghost use Rattle.sy_strata.specs.Edges.{needs_by};
ghost use Rattle.sy_strata.specs.Machine.Ways.{MarksRest, AreLeast};

use crate::Edge;
use std::alloc::Global;
use sy_base::{List, Memory};

/// The cycle that is named where these nodes are listed and no more can be.
pub(crate) fn named_cycle(
    alloc: Global,
    n: u32,
    edges: &[Edge],
    listed: &[u32],
) -> Result<List<u32>, Memory>
    requires ends { All (λ edge. (edge.node < n) × (edge.needs < n)) edges.now }
    requires listed { listed.now ≡ order (needs_by edges.now) n }
    ensures { IfOk result (λ cycle. cycle ≡ named_cycle (needs_by edges.now) n) }
{
    let remains = remaining(alloc, n, listed)?;
    let least_needs = least_needs(alloc, n, edges, &remains)?;
    walk(alloc, n, first_that_remains(n, &remains), &least_needs)
}

/// For each node whether it remains, as it isn't listed.
fn remaining(alloc: Global, n: u32, listed: &[u32]) -> Result<Vec<bool>, Memory>
    requires { All (λ node. node < n) listed.now }
    ensures { IfOk result (λ remains. MarksRest n listed.now remains.items) }
{
    let mut remains = vec![in alloc; true; n as usize]?;
    for node in listed {
        remains[*node as usize] = false;
    }
    Ok(remains)
}

/// The least node that remains.
fn first_that_remains(n: u32, remains: &[bool]) -> Option<u32>
    requires { length remains.now ≡ n }
    ensures { result ≡ find (λ node. slice_index_or remains.now node false) (numbers_below n) }
{
    for node in 0..n {
        if remains[node as usize] {
            return Some(node);
        }
    }
    None
}

/// For each node the least of its needs that remain.
fn least_needs(
    alloc: Global,
    n: u32,
    edges: &[Edge],
    remains: &[bool],
) -> Result<Vec<Option<u32>>, Memory>
    requires ends { All (λ edge. (edge.node < n) × (edge.needs < n)) edges.now }
    requires length { length remains.now ≡ n }
    ensures { IfOk result (λ least. AreLeast n edges.now remains.now least.items) }
{
    let mut least = vec![in alloc; None; n as usize]?;
    for edge in edges {
        if remains[edge.needs as usize] {
            let node = edge.node as usize;
            least[node] = Some(lesser(least[node], edge.needs));
        }
    }
    Ok(least)
}

/// The lesser of the two needs, or the one that there is.
fn lesser(least: Option<u32>, need: u32) -> u32
    ensures { result ≡ min (unwrap_or least need) need }
{
    least.unwrap_or(need).min(need)
}

/// The cycle to which the way leads that begins at the first node and goes each time to the next.
fn walk(
    alloc: Global,
    n: u32,
    first: Option<u32>,
    next: &[Option<u32>],
) -> Result<List<u32>, Memory>
    requires first { IfSome first (λ node. node < n) }
    requires next { All (λ node. IfSome node (λ node. node < n)) next.now }
    requires length { length next.now ≡ n }
    ensures { IfOk result
        (λ cycle. cycle ≡ cycle_on (λ node. slice_index_or next.now node None) (suc n) [] first) }
{
    let mut comings = vec![in alloc; None; n as usize]?;
    let mut way = List::new(alloc);
    let mut coming = first;
    while let Some(node) = coming {
        if let Some(place) = comings[node as usize] {
            return copied(alloc, &way.items()[place..]);
        }
        comings[node as usize] = Some(way.items().len());
        way.push(node)?;
        coming = next[node as usize];
    }
    Ok(List::new(alloc))
}

/// The nodes in a list of their own.
fn copied(alloc: Global, nodes: &[u32]) -> Result<List<u32>, Memory>
    ensures { IfOk result (λ copy. copy ≡ nodes.now) }
{
    let mut copy = List::new(alloc);
    for node in nodes {
        copy.push(*node)?;
    }
    Ok(copy)
}
