//! The deadlines to come: points in ascending order, for which all memory is taken at once.
#![tactic(auto)]

mod queue;

pub use queue::DeadlineQueue;
