use crate::fired::Fired;
use sy_core::{StateOf, Verdict};

/// What is given of a position at a point, beside its form and its state at the start of the point.
#[derive(Clone, Copy, Debug, PartialEq, Eq)]
pub struct Inputs {
    /// The verdict of its trigger.
    pub trigger: Verdict,
    /// The verdict of its antecedent.
    pub antecedent: Verdict,
    /// Its antecedent has no `holds`, so that a False of it stays.
    pub final_antecedent: bool,
    /// The verdict of its consequent; Open for a power's act.
    pub consequent: Verdict,
    /// The narrative exerts the power here.
    pub asked: bool,
    /// The contract's state at the start of the point.
    pub contract: StateOf,
    /// The power's act is on the contract.
    pub on_contract: bool,
    /// A power that triggers the position is exerted here.
    pub triggers: bool,
    /// A power that resumes the position is exerted here.
    pub resumes: bool,
    /// A power that suspends the position is exerted here.
    pub suspends: bool,
    /// A power that discharges the position is exerted here.
    pub discharges: bool,
    /// A power that terminates the position is exerted here.
    pub terminates: bool,
    /// A power that terminates the contract is exerted here.
    pub ends: bool,
    /// What has happened to the position here so far.
    pub fired: Fired,
}

/// What is given of the contract at a point, beside its state at the start of the point.
#[derive(Clone, Copy, Debug, PartialEq, Eq)]
pub struct ContractInputs {
    /// A power that resumes the contract is exerted here.
    pub resumes: bool,
    /// A power that suspends the contract is exerted here.
    pub suspends: bool,
    /// A power that terminates the contract is exerted here.
    pub terminates: bool,
    /// After this point every obligation that the contract waits for is settled, and one of them
    /// has begun.
    pub complete: bool,
}
