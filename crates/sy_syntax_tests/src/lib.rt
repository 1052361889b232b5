//! Tests of texts: what is read from them, what is refused and where, and what is printed.
#![tactic(auto)]

#[cfg(test)]
mod readings;
#[cfg(test)]
mod trees;
