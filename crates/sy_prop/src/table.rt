ghost use Rattle.std.specs.Prelude.{◌≡◌, map, get_or, take, [], length, ◌<◌};
ghost use Rattle.sy_atoms.specs.Machine.Atoms.{passed_to};
ghost use Rattle.sy_prop.specs.Machine.Tables.{on_atom, values_from, last_of};

use crate::node::Node;
use sy_base::Point;
use sy_core::{Verdict, greater, lesser, opposite};

/// The present point goes by for all nodes, and so do those from `first` on and before `last`, at
/// which nothing happens.
pub(crate) fn pass_to(nodes: &mut [Node], point: Point, first: Point, last: Point)
    ensures { nodes.new ≡ map (on_atom (passed_to point first last)) nodes.old }
{
    for node in nodes.iter_mut() {
        node.pass_to(point, first, last);
    }
}

/// The value of a node before this one; Open for one that isn't before it.
#[cycle(values)]
fn earlier(nodes: &[Node], point: Point, number: usize, node: usize) -> Verdict
    ensures { result ≡ get_or (take node (values_from point [] nodes.now)) number Verdict.Open }
{
    if number < node {
        verdict(nodes, point, number)
    } else {
        Verdict::Open
    }
}

/// The value of the node just before this one.
#[cycle(values)]
fn last(nodes: &[Node], point: Point, node: usize) -> Verdict
    requires { node < length nodes.now }
    ensures { result ≡ last_of (take node (values_from point [] nodes.now)) }
{
    if node == 0 {
        Verdict::Open
    } else {
        verdict(nodes, point, node - 1)
    }
}

/// The value of the node with a number; Open past the last.
#[cycle(values)]
pub(crate) fn verdict(nodes: &[Node], point: Point, node: usize) -> Verdict
    ensures { result ≡ get_or (values_from point [] nodes.now) node Verdict.Open }
{
    if node >= nodes.len() {
        return Verdict::Open;
    }
    match &nodes[node] {
        Node::Const(truth) => {
            if *truth {
                Verdict::True
            } else {
                Verdict::False
            }
        }
        Node::Not => opposite(last(nodes, point, node)),
        Node::Both(number) => lesser(
            earlier(nodes, point, *number, node),
            last(nodes, point, node),
        ),
        Node::Either(number) => greater(
            earlier(nodes, point, *number, node),
            last(nodes, point, node),
        ),
        Node::Atom(atom) => atom.verdict(point),
    }
}
