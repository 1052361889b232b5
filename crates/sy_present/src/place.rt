use crate::done::Done;
use sy_base::Point;
use sy_core::StateOf;
use sy_machines::Fired;
use sy_words::Form;

/// What is kept of one position.
#[derive(Clone, Copy, Debug)]
pub(crate) struct Place {
    pub form: Form,
    /// Its state at the start of the present point; once the point is settled, its state after it.
    pub state: StateOf,
    /// The first point at which it was violated.
    pub violated: Option<Point>,
    /// The first point at which it was exerted.
    pub exerted: Option<Point>,
    /// Whether the narrative exerts it at the present point.
    pub asked: bool,
    /// What is done to it at the present point so far.
    pub done: Done,
    /// Which of its internal events happened at the present point so far.
    pub fired: Fired,
}
