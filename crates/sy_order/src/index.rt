ghost use Rattle.std.specs.Prelude.{◌≡◌, ◌≤◌, ◌<◌, ◌-◌, ◌^◌, Some, IfOk, length, slice_get, unwrap_or};
ghost use Rattle.sy_core.specs.Prerequisites.{nodes};
ghost use Rattle.sy_order.specs.Nodes.{as_defined, nodes_by, number_by, forms_of};
ghost use Rattle.sy_order.specs.Machine.Places.{exert_number, trig_number, IsPlaceOf};

use crate::node::{Node, Nodes};
use std::alloc::Global;
use std::marker::Model;
use sy_base::{List, Memory};
use sy_core::{Deed, Position};
use sy_words::Form;

/// A position's form, and the number of its first node.
#[derive(Clone, Copy, Debug)]
struct Place {
    form: Form,
    first: u32,
}

impl Place {
    /// The number of its exertion, where it is a power.
    fn exert(self) -> Option<u32>
        ensures { result ≡ exert_number self }
    {
        match self.form {
            Form::Power => Some(self.first),
            _ => None,
        }
    }

    /// The number of its creation.
    fn trig(self) -> u32
        requires { self.first < 2 ^ 32 - 1 }
        ensures { result ≡ trig_number self }
    {
        match self.form {
            Form::Power => self.first + 1,
            _ => self.first,
        }
    }
}

/// The numbers of the nodes, and the nodes of the numbers. Contracts see the forms of the positions.
#[derive(Debug, Drop)]
pub struct NodeIndex {
    places: List<Place>,
    /// The nodes but that of the contract, by number.
    nodes: Nodes,
}

impl Model for NodeIndex {
    ghost use Rattle.std.specs.Prelude.{List, map};
    ghost use Rattle.sy_words.specs.declared.form.Form.{Form};

    ghost Value = { List Form };

    ghost use Rattle.sy_order.specs.Machine.Places.{forms_in, AreNumbered};

    ghost view = { λ index. forms_in index.places };

    ghost invariant = { λ index. AreNumbered index.places index.nodes };
}

impl NodeIndex {
    /// The index of the nodes of positions of these forms.
    pub fn of(alloc: Global, forms: &[Form]) -> Result<NodeIndex, Memory>
        requires { length forms.now ≤ 500 }
        ensures { IfOk result (λ index. index ≡ forms.now) }
    {
        let mut places = List::new(alloc);
        let mut nodes = Nodes::new(alloc);
        for (position, form) in forms.iter().enumerate() {
            let first = nodes.count() as u32;
            places.push(Place { form: *form, first })?;
            nodes.push_position(*form, position as u32)?;
        }
        Ok(NodeIndex { places, nodes })
    }

    /// The index of the nodes of a deed.
    pub fn of_deed(alloc: Global, deed: &Deed) -> Result<NodeIndex, Memory>
        requires { length deed.now.positions ≤ 500 }
        ensures forms { IfOk result (λ index. index ≡ forms_of deed.now.positions) }
        ensures nodes { IfOk result (λ index. nodes_by index ≡ nodes deed.now) }
    {
        let forms = forms_of(alloc, deed.positions.items())?;
        NodeIndex::of(alloc, forms.items())
    }

    /// How many nodes there are.
    pub fn count(&self) -> u32
        ensures { result ≡ length (nodes_by self.now) }
    {
        self.nodes.count() as u32 + 1
    }

    /// The node with a number.
    pub fn node(&self, number: u32) -> Node
        requires { number < length (nodes_by self.now) }
        ensures { slice_get (nodes_by self.now) number ≡ Some (as_defined result) }
    {
        match self.nodes.items().get(number as usize) {
            Some(node) => *node,
            None => Node::Contract,
        }
    }

    /// The number of a node. Of one that isn't there it is the count of nodes.
    pub fn number(&self, node: Node) -> u32
        ensures { result ≡ number_by self.now (as_defined node) }
    {
        self.find(node).unwrap_or(self.count())
    }

    /// The number of a node that is there.
    fn find(&self, node: Node) -> Option<u32>
        ensures { unwrap_or result (length (nodes_by self.now)) ≡ number_by self.now (as_defined node) }
    {
        match node {
            Node::Exert(position) => self.place(position)?.exert(),
            Node::Trig(position) => Some(self.place(position)?.trig()),
            Node::Act(position) => Some(self.place(position)?.trig() + 1),
            Node::End(position) => Some(self.place(position)?.trig() + 2),
            Node::Contract => Some(self.count() - 1),
        }
    }

    /// The place of a position that is there.
    fn place(&self, position: u32) -> Option<Place>
        ensures { IsPlaceOf self.now position result }
    {
        place_at(self.places.items(), position)
    }
}

/// The forms of the positions, in order.
fn forms_of(alloc: Global, positions: &[Position]) -> Result<List<Form>, Memory>
    ensures { IfOk result (λ forms. forms ≡ forms_of positions.now) }
{
    let mut forms = List::new(alloc);
    for position in positions {
        forms.push(position.form)?;
    }
    Ok(forms)
}

/// The place of a position, if it is there.
fn place_at(places: &[Place], position: u32) -> Option<Place>
    ensures { result ≡ slice_get places.now position }
{
    places.get(position as usize).copied()
}
