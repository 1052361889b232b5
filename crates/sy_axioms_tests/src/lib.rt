//! The order of a meat sale's nodes, and the cycle of two obligations that wait for each other: worked
//! out by hand, and proved of the definitions. The crate has no program.
#![tactic(auto)]

mod sale_order;

pub use sale_order::{crossed_needs_have_a_cycle, sale_is_ordered};
