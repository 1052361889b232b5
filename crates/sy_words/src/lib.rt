//! The closed lists of words on which both the syntax and the meaning of contracts stand.
#![tactic(auto)]

mod comparison;
mod form;
mod kind;
mod verb;

pub use comparison::Cmp;
pub use form::Form;
pub use kind::Kind;
pub use verb::Verb;
