//! Runs of the top call over objects in memory, with their expected bytes and statuses. It holds
//! tests alone, and stands in a crate of its own so that the crates below stay fast to prove.
#![tactic(auto)]

#[cfg(test)]
mod case;
#[cfg(test)]
mod faults;
#[cfg(test)]
mod lines;
#[cfg(test)]
mod rows;
