//! What a binding gives to the parameters of a contract, and the checks of the binding.
#![tactic(auto)]

mod checks;
mod extra;
mod known;
mod literals;
mod missing;
mod named;
mod repeats;
mod values;
mod wrong;

pub use checks::binding_fault;
pub use known::{Bound, Fields, Known};
pub use values::bound_values;
