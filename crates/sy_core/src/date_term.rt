use crate::event::Ev;
use sy_base::{Duration, List, Point};

/// What a date term begins with.
#[derive(Debug, Drop)]
pub enum Base {
    /// A date.
    Fixed(Point),
    /// The first point at which the event happened.
    First(Ev),
}

/// A date that may come to be known: a beginning and the durations that are added to it, from left
/// to right.
#[derive(Debug, Drop)]
pub struct DateTerm {
    pub base: Base,
    pub plus: List<Duration>,
}
