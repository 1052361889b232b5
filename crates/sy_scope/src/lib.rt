//! What the names of a specification stand for where they are used, the sorts of terms, and the way
//! through the propositions of a contract that each check goes.
#![tactic(auto)]

mod leaves;
mod phrase;
mod scope;
mod sorts;
mod walk;

pub use leaves::Leaves;
pub use phrase::{fail_at, fail_at_factor, fail_at_single, fail_at_term, path_token};
pub use scope::Scope;
pub use sorts::{factor_sort, rhs_sort, single_sort, summand, term_sort};
pub use walk::{walk_contract, walk_proposition};
