ghost use Rattle.std.specs.Prelude.{◌≡◌};
ghost use Rattle.sy_atoms.specs.Machine.Atoms.{told_atom, passed_to};

use sy_atoms::{Atom, Update};
use sy_base::Point;

/// A proposition in a table in which each part stands before what it is part of.
#[derive(Clone, Copy, Debug)]
pub(crate) enum Node {
    Const(bool),
    /// Not the node before.
    Not,
    /// The node with this number, and the node before.
    Both(usize),
    /// The node with this number, or the node before.
    Either(usize),
    Atom(Atom),
}

impl Node {
    ghost use Rattle.sy_prop.specs.Machine.Tables.{on_atom};

    /// An atom takes what is told of it.
    pub fn tell(&mut self, update: Update)
        ensures { self.new ≡ on_atom (told_atom update) self.old }
    {
        match self {
            Node::Atom(atom) => atom.tell(update),
            _ => {}
        }
    }

    /// For an atom the present point goes by, and so do those from `first` on and before `last`.
    pub fn pass_to(&mut self, point: Point, first: Point, last: Point)
        ensures { self.new ≡ on_atom (passed_to point first last) self.old }
    {
        match self {
            Node::Atom(atom) => atom.pass_to(point, first, last),
            _ => {}
        }
    }
}
