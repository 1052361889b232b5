//! Tests of the checks of a binding, over its text and that of its specification: which fault is told,
//! where, and with which words.
#![tactic(auto)]

#[cfg(test)]
mod bindings;
