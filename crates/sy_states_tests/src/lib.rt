//! Logs of a handover and of a hire, in which positions and the contract come to each of their states:
//! the reports were worked out by hand, and `monitor` writes them. The crate holds tests alone.
#![tactic(auto)]

#[cfg(test)]
mod handover;
#[cfg(test)]
mod held_handover;
#[cfg(test)]
mod hire;
