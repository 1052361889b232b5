ghost use Rattle.std.specs.Prelude.{◌≡◌, ◌≤◌, ◌++◌, map, length, IsTrue, IfOk, OnOk, IfErr};
ghost use Rattle.std.specs.List.{list_all};
ghost use Rattle.sy_core.specs.Orders.{IsAcyclic};
ghost use Rattle.sy_core.specs.Prerequisites.{nodes, numbered_needs, order_of};
ghost use Rattle.sy_strata.specs.Edges.{IsCycleFault, IsCircleFault};
ghost use Rattle.sy_order.specs.Nodes.{as_defined, number_by, forms_of};
ghost use Rattle.sy_order.specs.Naming.{names_what_is_there};
ghost use Rattle.sy_order.specs.Machine.NodeEdges.{edges_to, edges_below};

use crate::index::NodeIndex;
use crate::needs::needs;
use crate::node::Node;
use crate::table::Table;
use std::alloc::Global;
use sy_base::{List, Memory};
use sy_core::Deed;
use sy_strata::{Edge, OrderFault, order};

/// The order in which the deed's nodes are evaluated, by number, whatever order stands in the deed.
/// The deed has at most 500 positions, and names only what is there.
///
/// # Errors
///
/// `Cycle` where there is no such order, with the cycle to which the least node leads that can't be
/// listed, by its least need that can't, and so on.
pub fn evaluation_order(alloc: Global, deed: &Deed) -> Result<List<u32>, OrderFault>
    requires few { length deed.now.positions ≤ 500 }
    requires there { IsTrue (list_all (names_what_is_there deed.now) deed.now.positions) }
    ensures listed { IfOk result (λ list. list ≡ order_of deed.now) }
    ensures acyclic { OnOk result (IsAcyclic (numbered_needs deed.now) (length (nodes deed.now))) }
    ensures cycle { IfErr result (IsCycleFault (numbered_needs deed.now) (length (nodes deed.now))) }
    ensures circle { IfErr result (IsCircleFault (numbered_needs deed.now)) }
{
    let index = NodeIndex::of_deed(alloc, deed)?;
    let table = Table::of(alloc, deed)?;
    let edges = edges(alloc, &table, &index)?;
    order(alloc, index.count(), edges.items())
}

/// The edges from each node to what it needs.
fn edges(alloc: Global, table: &Table, index: &NodeIndex) -> Result<List<Edge>, Memory>
    requires { index.now ≡ forms_of table.now.positions }
    ensures { IfOk result (λ edges. edges ≡ edges_below table.now (length (nodes table.now))) }
{
    let mut edges = List::new(alloc);
    for number in 0..index.count() {
        let needs = needs(alloc, table, index.node(number))?;
        add_edges(&mut edges, index, number, needs.items())?;
    }
    Ok(edges)
}

/// Adds the edges from a node to what it needs.
fn add_edges(
    edges: &mut List<Edge>,
    index: &NodeIndex,
    node: u32,
    needs: &[Node],
) -> Result<(), Memory>
    ensures { OnOk result
        (edges.new ≡ edges.old ++ edges_to node (map (number_by index.now) (map as_defined needs.now))) }
{
    for need in needs {
        edges.push(Edge {
            node,
            needs: index.number(*need),
        })?;
    }
    Ok(())
}
