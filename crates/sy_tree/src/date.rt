use crate::{EventTree, PathTree};
use sy_base::{List, Measure, Place};
use sy_lex::Written;

/// A date term: a moment, and at most eight durations that are added to it from left to right.
#[derive(Debug, Drop)]
pub struct DateTree {
    pub moment: MomentTree,
    pub plus: List<DurationTree>,
}

/// What a date term begins with.
#[derive(Debug, Drop)]
pub enum MomentTree {
    Fixed(Written),
    Path(PathTree),
    /// The first time of an event, and where the word `time` stands.
    Time(Place, EventTree),
}

/// A count of a measure.
#[derive(Debug, Drop)]
pub struct DurationTree {
    pub count: CountTree,
    pub measure: MeasureTree,
}

/// How many a duration counts.
#[derive(Debug, Drop)]
pub enum CountTree {
    Number(Written),
    Path(PathTree),
}

/// A measure, and its word in the source: the singular or the plural.
#[derive(Debug, Drop)]
pub struct MeasureTree {
    pub measure: Measure,
    pub word: Written,
}
