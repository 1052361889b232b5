//! The texts that a run prints: reports and refusals.
#![tactic(auto)]

mod refusal;
mod report;

pub use refusal::{of_line, refusal_text, whole};
pub use report::report_text;
