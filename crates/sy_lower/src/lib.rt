//! The propositions and the positions of a specification, turned into those of its deed under a
//! binding.
#![tactic(auto)]

mod dates;
mod events;
mod lowering;
mod positions;
mod propositions;
mod values;

pub use lowering::Lowering;
