//! The canonical text of a specification.
#![tactic(auto)]

mod canonical;

pub use canonical::print;
