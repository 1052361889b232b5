//! The notation of the grammar, tokens read from left to right, and what reads a rule.
#![tactic(auto)]

mod fault;
mod lexeme;
mod lines;
mod production;
mod reader;
mod whole;

pub use fault::Fault;
pub use lexeme::Lexeme;
pub use lines::{Headings, NoHeadings, ended};
pub use production::{
    Production, all_behind, before, behind, between, each_behind, listed, maybe_listed,
};
pub use reader::Reader;
pub use whole::parse;
