ghost use Rattle.std.specs.Prelude.{◌≡◌, ◌<◌, ◌≤◌, ℕ, false, IfOk, OnOk, IfErr, IfNone, IfSome};
ghost use Rattle.std.specs.List.{All};
ghost use Rattle.std.specs.Ordering.{nat_cmp};
ghost use Rattle.std.specs.BTreeSet.{contains};
ghost use Rattle.sy_core.specs.Orders.{order, IsAcyclic};
ghost use Rattle.sy_strata.specs.Edges.{needs_by, IsCycleFault, IsCircleFault};
ghost use Rattle.sy_strata.specs.Machine.Counting.{IsLeastTaken};

use crate::counters::Counters;
use crate::cycle::named_cycle;
use crate::{Edge, OrderFault};
use std::alloc::Global;
use std::collections::BTreeSet;
use sy_base::{List, Memory};

/// The nodes below `n`, which is at most 2,001, in the order in which each stands after all that it
/// needs, and at each place the least that may stand there. Both ends of each edge are below `n`.
///
/// # Errors
///
/// `Cycle` where there is no such order, with the cycle to which the least node leads that can't be
/// listed, by its least need that can't, and so on.
pub fn order(alloc: Global, n: u32, edges: &[Edge]) -> Result<List<u32>, OrderFault>
    requires few { n ≤ 2001 }
    requires ends { All (λ edge. (edge.node < n) × (edge.needs < n)) edges.now }
    ensures listed { IfOk result (λ list. list ≡ order (needs_by edges.now) n) }
    ensures acyclic { OnOk result (IsAcyclic (needs_by edges.now) n) }
    ensures cycle { IfErr result (IsCycleFault (needs_by edges.now) n) }
    ensures circle { IfErr result (IsCircleFault (needs_by edges.now)) }
{
    let list = listed(alloc, n, edges)?;
    if list.items().len() == n as usize {
        Ok(list)
    } else {
        let cycle = named_cycle(alloc, n, edges, list.items())?;
        Err(OrderFault::Cycle(cycle))
    }
}

/// The nodes in order, up to where none is ready.
fn listed(alloc: Global, n: u32, edges: &[Edge]) -> Result<List<u32>, Memory>
    requires { All (λ edge. (edge.node < n) × (edge.needs < n)) edges.now }
    ensures { IfOk result (λ list. list ≡ order (needs_by edges.now) n) }
{
    let mut counters = Counters::of(alloc, n, edges)?;
    let mut ready = counters.ready(alloc)?;
    let mut list = List::new(alloc);
    'places: for _ in 0..n {
        let Some(node) = take_least(&mut ready) else {
            return Ok(list);
        };
        counters.meet(node, &mut ready)?;
        list.push(node)?;
    }
    Ok(list)
}

/// Takes the least node out of the set, where it has one.
fn take_least(ready: &mut BTreeSet<u32>) -> Option<u32>
    ensures none { IfNone result ((k : ℕ) → contains nat_cmp ready.old k ≡ false) }
    ensures least { IfSome result (λ node. IsLeastTaken node ready.old ready.new) }
{
    ready.pop_first()
}
