//! Follows one contract: it holds what happened, and gives the table as of each date by a live core.
#![tactic(auto)]

mod course;
mod monitor;
mod table;
mod tables_law;

pub use monitor::Monitor;
pub use tables_law::tables_go_by_what_happens;
