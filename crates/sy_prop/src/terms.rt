ghost use Rattle.std.specs.Prelude.{◌≡◌, ◌++◌, OnOk, IfOk, slice_get};
ghost use Rattle.sy_prop.specs.Machine.Terms.{places_of, places_from, date_in, date_at, date_by};

use crate::node::Node;
use std::alloc::Global;
use sy_atoms::Atom;
use sy_base::{Memory, Point};

/// Where the value of a date term stands: at which node, and whether it is its second date.
#[derive(Clone, Copy, Debug)]
pub(crate) struct TermPlace {
    pub node: usize,
    pub second: bool,
}

/// Adds the places of a node's dates.
fn add_dates(places: &mut Vec<TermPlace>, number: usize, node: &Node) -> Result<(), Memory>
    ensures { OnOk result (places.new.items ≡ places.old.items ++ places_of number node.now) }
{
    let first = TermPlace {
        node: number,
        second: false,
    };
    let second = TermPlace {
        node: number,
        second: true,
    };
    match node {
        Node::Atom(Atom::Before(_, _)) => {
            places.push(first)?;
            Ok(())
        }
        Node::Atom(Atom::After(_, _)) => {
            places.push(first)?;
            Ok(())
        }
        Node::Atom(Atom::Within(_, _, _)) => {
            places.push(first)?;
            places.push(second)?;
            Ok(())
        }
        Node::Atom(Atom::Occurs(_, _, _, _)) => {
            places.push(first)?;
            places.push(second)?;
            Ok(())
        }
        _ => Ok(()),
    }
}

/// The places of the dates of all nodes, in their order.
pub(crate) fn term_places(alloc: Global, nodes: &[Node]) -> Result<Vec<TermPlace>, Memory>
    ensures { IfOk result (λ places. places.items ≡ places_from 0 nodes.now) }
{
    let mut places = Vec::new(alloc);
    let mut number = 0;
    for node in nodes {
        add_dates(&mut places, number, node)?;
        number += 1;
    }
    Ok(places)
}

/// A date of the node, if it has one.
fn date_in(node: &Node, second: bool) -> Option<Point>
    ensures { result ≡ date_in second node.now }
{
    match node {
        Node::Atom(Atom::Before(_, to)) => to.value,
        Node::Atom(Atom::After(_, from)) => from.value,
        Node::Atom(Atom::Within(_, from, to)) => { if second { to.value } else { from.value } }
        Node::Atom(Atom::Occurs(_, _, from, to)) => { if second { to.value } else { from.value } }
        _ => None,
    }
}

/// The value that stands at a place, if there is one.
fn date_at(nodes: &[Node], place: TermPlace) -> Option<Point>
    ensures { result ≡ date_at nodes.now place }
{
    match nodes.get(place.node) {
        Some(node) => date_in(node, place.second),
        None => None,
    }
}

/// The value of the date term with this number, if it has one.
pub(crate) fn date_by(nodes: &[Node], places: &[TermPlace], term: usize) -> Option<Point>
    ensures { result ≡ date_by nodes.now (slice_get places.now term) }
{
    match places.get(term) {
        Some(place) => date_at(nodes, *place),
        None => None,
    }
}
