//! The machines of positions and of the contract as tables: which internal event happens at a
//! point, by what is given there, and which state follows. No call takes memory, and none fails.
#![tactic(auto)]

mod fired;
mod inputs;
mod rows;
mod states;
#[cfg(test)]
mod tests;

pub use fired::Fired;
pub use inputs::{ContractInputs, Inputs};
pub use rows::{fire, fire_contract};
pub use states::{next_contract, next_state};
