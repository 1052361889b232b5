//! That the names of an accepted specification are apart, and what each then stands for.
#![tactic(auto)]

mod apart_law;
mod meaning_law;
mod things_law;

pub use apart_law::names_are_apart;
pub use meaning_law::names_mean_their_things;
pub use things_law::meanings_are_of_things;
