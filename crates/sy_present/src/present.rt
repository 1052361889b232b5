use crate::acting::Acting;
use crate::done::Done;
use crate::place::Place;
use sy_core::StateOf;
use sy_machines::Fired;
use sy_order::Node;
use sy_prop::Latches;

/// What is kept of a deed at one point: the past as far as its propositions ask for it, the states,
/// and what happens at the point.
#[derive(Drop)]
pub struct Present {
    pub(crate) latches: Latches,
    /// The contract's state at the start of the present point; once the point is settled, that after
    /// it.
    pub(crate) contract: StateOf,
    /// What is done to the contract at the present point so far.
    pub(crate) contract_done: Done,
    /// Which of the contract's internal events happened at the present point so far.
    pub(crate) contract_fired: Fired,
    /// The positions, in the deed's order.
    pub(crate) places: Vec<Place>,
    /// Whether anything internal happened at the present point so far.
    pub(crate) eventful: bool,
    /// The nodes in the order in which they are evaluated.
    pub(crate) order: Vec<Node>,
    /// How many of them act on the contract.
    pub(crate) acting: Acting,
}
