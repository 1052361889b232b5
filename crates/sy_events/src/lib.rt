//! What a deed declares: its events, with the attributes of which each happening gives a value, and
//! its enumerations; and the numbers by which all else names them.
#![tactic(auto)]

mod declared;
mod enumerations;
mod events;
mod numbers;

pub use declared::{Declared, attribute};
