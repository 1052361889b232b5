use crate::state::StateOf;
use sy_base::{List, Point};

/// What is known of a proposition at a point.
#[derive(Clone, Copy, Debug, PartialEq, Eq)]
pub enum Verdict {
    False,
    Open,
    True,
}

/// A position at a point.
#[derive(Clone, Copy, Debug, PartialEq, Eq)]
pub struct Mark {
    pub point: Point,
    /// Its place in the deed's `positions`.
    pub position: u32,
}

/// What stands as of a date, by all that happened up to it.
#[derive(Debug, Drop)]
pub struct Table {
    pub at: Point,
    pub contract: StateOf,
    /// The state of each position.
    pub states: List<StateOf>,
    /// The violations up to the date, by point and then by position.
    pub violations: List<Mark>,
    /// The exertions up to the date that did nothing, by point and then by position.
    pub voids: List<Mark>,
    /// The verdict of each postcondition.
    pub posts: List<Verdict>,
}
