//! The deed of a specification and a binding: the checks of the binding, one behind the other, and the
//! contract with its parameters bound.
#![tactic(auto)]

mod binding;

pub use binding::deed;
