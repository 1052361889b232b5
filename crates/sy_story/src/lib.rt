//! The happenings that are held under a contract: a set of them, by their points.
#![tactic(auto)]

mod moments;
mod story;

pub use story::{Noted, Story, StoryFault};
