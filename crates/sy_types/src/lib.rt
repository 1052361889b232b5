//! The check that no phrase of a specification breaks the rules of types.
#![tactic(auto)]

mod attributes;
mod comparisons;
mod conditions;
mod dates;
mod declarations;
mod phrases;
mod positions;
mod targets;
mod terms;
mod wrong;

pub use targets::{is_act_on, is_contract_act, is_contract_kind, is_kind_of};
pub use wrong::wrong_types;
