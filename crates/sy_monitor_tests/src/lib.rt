//! Logs through the top call, over objects in memory that never fail: what `monitor` writes of them,
//! and how it ends. Each is read in one piece, and a byte at a time. Beside its tests the crate has
//! what tests over logs share.
#![tactic(auto)]

#[cfg(test)]
mod first_sale;
#[cfg(test)]
mod meat_sale;
#[cfg(test)]
mod propositions;
#[cfg(test)]
mod tasting;
pub mod told;
#[cfg(test)]
mod verdicts;
