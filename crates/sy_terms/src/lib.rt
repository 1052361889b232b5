//! The values of paths and terms under a binding, and the checks of the binding that need them.
#![tactic(auto)]

mod checks;
mod comparisons;
mod conditions;
mod counts;
mod environment;
mod item;
mod numbers;
mod paths;
mod ranges;
mod terms;

pub use checks::values_fault;
pub use conditions::comparison_holds;
pub use counts::duration_count;
pub use environment::Environment;
pub use item::Item;
pub use paths::item_of_path;
pub use terms::{item_of_rhs, item_of_term};
