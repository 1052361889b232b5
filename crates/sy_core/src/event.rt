use crate::kind::Target;
use crate::value::Value;
use sy_base::List;
use sy_words::{Cmp, Kind};

/// A comparison of one attribute of a happening with a value.
#[derive(Debug, Drop)]
pub struct Guard {
    /// The attribute's place in the event's declaration.
    pub attr: u32,
    pub cmp: Cmp,
    /// What stands on the right of the comparison.
    pub value: Value,
}

/// An event that a proposition names.
#[derive(Debug, Drop)]
pub enum Ev {
    /// The event with this place in the deed's `events`, where each guard is true.
    Outer(u32, List<Guard>),
    /// An internal event.
    Inner(Kind, Target),
}
