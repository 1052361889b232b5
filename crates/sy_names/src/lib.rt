//! The check that every name that is used in a specification is declared for its place.
#![tactic(auto)]

mod declarations;
mod events;
mod paths;
mod targets;
mod unknown;
mod uses;

pub use targets::{is_contract_state, is_state_of};
pub use unknown::unknown_names;
