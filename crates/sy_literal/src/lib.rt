//! What the literals of a text stand for, and the checks of a specification's literals, consequents
//! and limits.
#![tactic(auto)]

mod calendar;
mod consequents;
mod limits;
mod literals;
mod numbers;
mod values;

pub use calendar::{calendar_fault, is_finer};
pub use consequents::situations_in_consequents;
pub use limits::limits_passed;
pub use numbers::{greatest_count, numbers_out_of_range};
pub use values::{content, date, number};
