//! Tests of the checks of a specification, over its text: which fault is told, where, and with which
//! words. Beside its tests the crate has what tests of bindings share.
#![tactic(auto)]

#[cfg(test)]
mod specifications;
pub mod told;
