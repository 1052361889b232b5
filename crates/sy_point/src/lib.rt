//! The live core of a deed: it evaluates wake points in one pass each, and passes over all others.
#![tactic(auto)]

mod live;
mod step;

pub use live::Core;
