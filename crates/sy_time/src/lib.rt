//! Dates: their texts and their points.
#![tactic(auto)]

mod date;
mod digits;
mod duration;
mod unit;
mod write;
mod written;

pub use date::{DateFault, read_date};
pub use duration::add;
pub use write::write_date;
pub use written::has_date_form;
