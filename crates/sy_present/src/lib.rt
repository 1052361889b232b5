//! The present point of a deed: what is told of it, which internal events happen there in one pass in
//! the deed's order, and the states after it.
#![tactic(auto)]

mod acting;
mod completion;
mod done;
mod evaluation;
mod fire;
mod happen;
mod make;
mod nodes;
mod place;
mod present;
mod readers;
mod rows;
mod seen;
mod settle;

pub use present::Present;
