//! The plain evaluator: it keeps every point, and works each next one out by the definitions as they
//! stand. It is slow, and it is what faster evaluators are held against.
#![tactic(auto)]

mod completion;
mod condition;
mod moment;
mod plain;
mod present;
mod rounds;
mod states;
mod verdict;

pub use plain::Plain;
