ghost use Rattle.std.specs.Prelude.{◌≡◌, ◌++◌, ◌∷◌, [], map, OnOk, length};
ghost use Rattle.sy_core.specs.Prerequisites as defined;
ghost use Rattle.sy_order.specs.Nodes.{as_defined};

use std::alloc::Global;
use std::marker::Model;
use sy_base::{List, Memory};
use sy_words::Form;

/// What stands for the internal events of one sort of the position with this place in the deed's
/// `positions`, or for those of the contract.
#[derive(Clone, Copy, Debug, PartialEq, Eq)]
pub enum Node {
    /// The exertion of a power.
    Exert(u32),
    /// The creation of a position.
    Trig(u32),
    /// Its coming into effect.
    Act(u32),
    /// Its end.
    End(u32),
    Contract,
}

/// Nodes in a row, which contracts see as those of the definitions.
#[derive(Debug, Drop)]
pub(crate) struct Nodes {
    items: List<Node>,
}

impl Model for Nodes {
    ghost use Rattle.std.specs.Prelude.{List, map};
    ghost use Rattle.sy_core.specs.Prerequisites.{Node};
    ghost use Rattle.sy_order.specs.Nodes.{as_defined};

    ghost Value = { List Node };

    ghost view = { λ nodes. map as_defined nodes.items };
}

impl Nodes {
    /// No node.
    pub fn new(alloc: Global) -> Nodes
        ensures { result ≡ [] }
    {
        Nodes {
            items: List::new(alloc),
        }
    }

    /// The nodes, in order.
    pub fn items(&self) -> &[Node]
        ensures { map as_defined result.now ≡ self.now }
    {
        self.items.items()
    }

    /// How many nodes there are.
    pub fn count(&self) -> usize
        ensures { result ≡ length self.now }
    {
        self.items.items().len()
    }

    /// Adds a node.
    pub fn push(&mut self, node: Node) -> Result<(), Memory>
        ensures { OnOk result (self.new ≡ self.old ++ as_defined node ∷ []) }
    {
        self.items.push(node)
    }

    /// Adds the creation, the coming into effect and the end of a position.
    pub fn push_obligation(&mut self, position: u32) -> Result<(), Memory>
        ensures { OnOk result (self.new ≡ self.old ++ defined.obligation_nodes position) }
    {
        self.push(Node::Trig(position))?;
        self.push(Node::Act(position))?;
        self.push(Node::End(position))
    }

    /// Adds the exertion of a position, where it is a power.
    pub fn push_own_exert(&mut self, form: Form, position: u32) -> Result<(), Memory>
        ensures { OnOk result (self.new ≡ self.old ++ defined.own_exert form position) }
    {
        match form {
            Form::Power => self.push(Node::Exert(position)),
            _ => Ok(()),
        }
    }

    /// Adds the nodes of a position of the form.
    pub fn push_position(&mut self, form: Form, position: u32) -> Result<(), Memory>
        ensures { OnOk result (self.new ≡ self.old ++ defined.nodes_of form position) }
    {
        self.push_own_exert(form, position)?;
        self.push_obligation(position)
    }
}
