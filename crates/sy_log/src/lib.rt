//! The lines of a log under a deed: what each says, and how a happening is written as one.
#![tactic(auto)]

mod fault;
mod laws;
mod names;
mod print;
mod read;
mod reading;
mod told;
mod tree;
mod values;

pub use laws::{each_line_says_something, printed_entries_read_back, sound_deeds_have_few_names};
pub use print::print_entry;
pub use read::{Entry, read_line};
