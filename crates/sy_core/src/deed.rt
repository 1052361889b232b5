use crate::position::Position;
use crate::proposition::Prop;
use crate::value::ValueKind;
use sy_base::{List, Point, Text, TimeUnit};

/// An attribute of which each happening gives a value.
#[derive(Debug, Drop)]
pub struct AttrDecl {
    pub name: Text,
    pub kind: ValueKind,
}

/// A declared event. It has only the attributes of which each happening gives a value.
#[derive(Debug, Drop)]
pub struct EventDecl {
    pub name: Text,
    pub attrs: List<AttrDecl>,
}

/// An enumeration: the names of its constants, in order.
#[derive(Debug, Drop)]
pub struct Choices {
    pub names: List<Text>,
}

/// A contract with its parameters bound. All else names its parts by their places in its lists.
#[derive(Debug, Drop)]
pub struct Deed {
    /// What its points count.
    pub unit: TimeUnit,
    /// Its first point.
    pub start: Point,
    pub events: List<EventDecl>,
    pub choices: List<Choices>,
    /// Obligations, then surviving obligations, then powers, each in the order of the text.
    pub positions: List<Position>,
    /// The postconditions.
    pub posts: List<Prop>,
    /// The order in which the nodes of one point are evaluated.
    pub order: List<u32>,
}
