//! Contracts in the language of symboleo, as tests and examples use them. Each call gives one text;
//! every line of a text ends with a newline.
#![tactic(auto)]

mod cycle;
mod first_sale;
mod long;
mod meat_sale;
#[cfg(test)]
mod tests;

pub use cycle::t;
pub use first_sale::{s, s_bind, s_compiled, s2};
pub use long::{l, l_bind};
pub use meat_sale::{m, m_bind, m_values};
