use crate::date_term::DateTerm;
use crate::event::Ev;
use crate::kind::Target;
use crate::state::StateOf;
use sqlite_items::{Boxed, Items};

/// That a target is in a state, or isn't, at the start of a point.
#[derive(Clone, Copy, Debug, PartialEq, Eq)]
pub struct Situation {
    pub target: Target,
    /// Whether it is to be in the state, or not to be.
    pub equal: bool,
    pub state: StateOf,
}

/// A proposition over the events and states up to a point.
#[derive(Debug, Drop)]
pub enum Prop {
    Const(bool),
    Not(Boxed<Prop>),
    All(Items<Prop>),
    Any(Items<Prop>),
    /// The event happened.
    Happens(Ev),
    /// The event happened before the date.
    Before(Ev, DateTerm),
    /// The event happened after the date.
    After(Ev, DateTerm),
    /// The event happened from the first date on and before the second.
    Within(Ev, DateTerm, DateTerm),
    /// The situation holds at each point from the first date on and before the second.
    Occurs(Situation, DateTerm, DateTerm),
    /// The situation holds now.
    Holds(Situation),
}
