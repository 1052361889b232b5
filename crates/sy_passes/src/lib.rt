//! The law of one pass: the internal events of a point are found by going once over the events of
//! the deed in their order.
#![tactic(auto)]

mod pass_law;

pub use pass_law::one_pass_is_enough;
