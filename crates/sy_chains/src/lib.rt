//! The isA chains of types, which know a type by its number: the types above one, those whose
//! chains reach themselves, and the ends of chains.
#![tactic(auto)]

mod chains;
mod ends;
mod walks;

pub use chains::{base_at, chain_above, is_above};
pub use ends::{find_ends, mark_at};
pub use walks::find_cycles;
