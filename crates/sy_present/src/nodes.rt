ghost use Rattle.std.specs.Prelude.{◌≡◌, ◌≤◌, IfOk, map, length};
ghost use Rattle.sy_core.specs.Soundness.{IsOrdered};
ghost use Rattle.sy_core.specs.Prerequisites.{nodes_in_order};
ghost use Rattle.sy_order.specs.Nodes.{as_defined};
ghost use Rattle.sy_present.specs.Machine.Counts.{AreActing, count_acting};

use crate::acting::{Acting, acts};
use std::alloc::Global;
use sy_base::Memory;
use sy_core::Deed;
use sy_order::{Node, NodeIndex};
use sy_words::Verb;

/// The nodes of a deed in the order in which they are evaluated.
pub(crate) fn nodes_in_order(alloc: Global, deed: &Deed) -> Result<Vec<Node>, Memory>
    requires few { length deed.now.positions ≤ 500 }
    requires ordered { IsOrdered deed.now }
    ensures { IfOk result (λ ns. map as_defined ns.items ≡ nodes_in_order deed.now) }
{
    let index = NodeIndex::of_deed(alloc, deed)?;
    let mut nodes = Vec::new(alloc);
    for number in deed.order.items() {
        if *number < index.count() {
            nodes.push(index.node(*number))?;
        }
    }
    Ok(nodes)
}

/// How many of some nodes act on the contract.
pub(crate) fn count_acting(deed: &Deed, nodes: &[Node]) -> Acting
    ensures { AreActing result deed.now (map as_defined nodes.now) }
{
    Acting {
        resumes: count(deed, Verb::Resumes, nodes),
        suspends: count(deed, Verb::Suspends, nodes),
        terminates: count(deed, Verb::Terminates, nodes),
    }
}

/// How many of some nodes do this to the contract.
fn count(deed: &Deed, verb: Verb, nodes: &[Node]) -> usize
    ensures { result ≡ count_acting deed.now verb (map as_defined nodes.now) }
{
    let mut count = 0;
    for node in nodes {
        if acts(deed, verb, *node) {
            count += 1;
        }
    }
    count
}
