//! Bindings: their trees, the rules that say what tokens spell them, and what reads them.
#![tactic(auto)]

mod parse;
mod reading;
mod tree;

pub use parse::binding;
pub use tree::{BindTree, BoundTree, FieldTree, GivenTree, ValueTree};
