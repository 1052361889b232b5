//! The propositions of a deed in one flat table, so that each verdict and date is at hand at each
//! point. The table keeps bits, dates and states alone; events and date terms are the deed's.
#![tactic(auto)]

mod deed;
mod latches;
mod make;
mod node;
mod roots;
mod table;
mod telling;
mod terms;
mod walk;

pub use latches::Latches;
pub use roots::Root;
