ghost use Rattle.std.specs.Prelude.{◌≡◌, ℕ, [], ◌<◌, ◌≤◌, ◌^◌, ◌==◌, ◌&&◌, IfOk, OnOk, length, replicate, slice_index, slice_index_or, nat_lt};
ghost use Rattle.std.specs.List.{All};
ghost use Rattle.std.specs.Ordering.{nat_cmp};
ghost use Rattle.std.specs.BTreeSet.{contains};
ghost use Rattle.sy_strata.specs.Machine.Counting.{times, AreCounted, AreMet, IsLowered};

use crate::Edge;
use std::alloc::Global;
use std::collections::BTreeSet;
use sy_base::{List, Memory};

/// What the nodes that aren't listed yet wait for.
#[derive(Drop)]
pub(crate) struct Counters {
    /// For each node those that need it, each as often as an edge says it.
    needers: Vec<List<u32>>,
    /// For each node how many of its needs aren't listed, each as often as an edge says it.
    unmet: Vec<u64>,
}

impl Counters {
    /// The counters where no node is listed.
    pub(crate) fn of(alloc: Global, n: u32, edges: &[Edge]) -> Result<Counters, Memory>
        requires { All (λ edge. (edge.node < n) × (edge.needs < n)) edges.now }
        ensures { IfOk result
            (λ counters. AreCounted n edges.now counters.needers.items counters.unmet.items) }
    {
        let mut needers = empty_lists(alloc, n)?;
        let mut unmet = vec![in alloc; 0; n as usize]?;
        for edge in edges {
            needers[edge.needs as usize].push(edge.node)?;
            unmet[edge.node as usize] += 1;
        }
        Ok(Counters { needers, unmet })
    }

    /// The nodes of which no need is unmet.
    pub(crate) fn ready(&self, alloc: Global) -> Result<BTreeSet<u32>, Memory>
        requires { length self.now.unmet.items < 2 ^ 32 }
        ensures { IfOk result
            (λ ready. (k : ℕ) → contains nat_cmp ready k
            ≡ (nat_lt k (length self.now.unmet.items) && (slice_index self.now.unmet.items k == 0))) }
    {
        let mut ready = BTreeSet::new(alloc);
        for (node, count) in self.unmet.iter().enumerate() {
            if *count == 0 {
                ready.insert(node as u32)?;
            }
        }
        Ok(ready)
    }

    /// Lowers the counters of the nodes that need this one. Those that come to 0 are ready.
    pub(crate) fn meet(&mut self, node: u32, ready: &mut BTreeSet<u32>) -> Result<(), Memory>
        requires node { node < length self.old.needers.items }
        requires room { (k : ℕ)
            → times k (slice_index_or self.old.needers.items node []) ≤ slice_index self.old.unmet.items k }
        ensures needers { self.new.needers.items ≡ self.old.needers.items }
        ensures met { OnOk result
            (AreMet (slice_index_or self.old.needers.items node [])
            self.old.unmet.items self.new.unmet.items ready.old ready.new) }
    {
        meet_each(self.needers[node as usize].items(), &mut self.unmet, ready)
    }
}

/// So many empty lists.
fn empty_lists(alloc: Global, n: u32) -> Result<Vec<List<u32>>, Memory>
    ensures { IfOk result (λ lists. lists.items ≡ replicate n []) }
{
    let mut lists = Vec::new(alloc);
    'lists: for _ in 0..n {
        lists.push(List::new(alloc))?;
    }
    Ok(lists)
}

/// Lowers each node's counter as often as it is told. Those that come to 0 are ready.
fn meet_each(needers: &[u32], unmet: &mut Vec<u64>, ready: &mut BTreeSet<u32>) -> Result<(), Memory>
    requires { (k : ℕ) → times k needers.now ≤ slice_index unmet.old.items k }
    ensures { OnOk result (AreMet needers.now unmet.old.items unmet.new.items ready.old ready.new) }
{
    for needer in needers {
        lower(unmet, ready, *needer)?;
    }
    Ok(())
}

/// Lowers one node's counter. Where it comes to 0 the node is ready.
fn lower(unmet: &mut Vec<u64>, ready: &mut BTreeSet<u32>, node: u32) -> Result<(), Memory>
    requires { 0 < slice_index unmet.old.items node }
    ensures { OnOk result (IsLowered node unmet.old.items unmet.new.items ready.old ready.new) }
{
    let left = unmet[node as usize] - 1;
    unmet[node as usize] = left;
    if left == 0 {
        ready.insert(node)?;
    }
    Ok(())
}
