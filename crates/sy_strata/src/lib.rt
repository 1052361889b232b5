//! The order of numbered nodes in which each stands after those that it needs. Where they have
//! none, a cycle in which they need each other.
#![tactic(auto)]

mod counters;
mod cycle;
mod edge;
mod fault;
mod listing;

pub use edge::Edge;
pub use fault::OrderFault;
pub use listing::order;
