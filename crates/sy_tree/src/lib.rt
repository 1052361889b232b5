//! Propositions and what they are made of: their trees, the rules that say what tokens spell them,
//! and what reads them.
#![tactic(auto)]

mod date;
mod proposition;
mod reading;
mod target;
mod term;

pub use date::{CountTree, DateTree, DurationTree, MeasureTree, MomentTree};
pub use proposition::{CmpTree, EventTree, First, GuardTree, PropTree, SituationTree};
pub use target::TargetTree;
pub use term::{FactorTree, PathTree, RhsTree, SingleTree, SumTree, TermTree};
