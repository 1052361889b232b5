//! What is kept of the past for one atom of a proposition, so that its verdict needs no search: bits,
//! and the values of its dates. What happened at a point and the states are told to it, and the point
//! goes by.
#![tactic(auto)]

mod atom;
mod due;
mod look;
mod news;
mod sight;
mod sums;
mod update;

pub use atom::Atom;
pub use due::{Due, first_due};
pub use look::{Look, first_look};
pub use news::News;
pub use sight::Sight;
pub use update::Update;
