ghost use Rattle.std.specs.Prelude.{◌≡◌, IfOk};
ghost use Rattle.sy_core.specs.StateWords as words;
ghost use Rattle.sy_core.specs.States.{same_state};

use std::alloc::Global;
use sy_base::{List, Memory};

/// The states of positions and of the contract.
///
/// An obligation is in one of the first seven or in `UnsuccessfulTermination`. A power is in one of
/// the first four, in `SuccessfulTermination` or in `UnsuccessfulTermination`. The contract is in
/// `Form`, `InEffect`, `Suspension` or one of the two terminations.
#[derive(Clone, Copy, Debug, PartialEq, Eq)]
pub enum StateOf {
    Null,
    Create,
    InEffect,
    Suspension,
    Fulfillment,
    Violation,
    Discharge,
    SuccessfulTermination,
    UnsuccessfulTermination,
    /// The contract before its start.
    Form,
}

/// All states.
const STATES: [StateOf; 10] = [
    StateOf::Null,
    StateOf::Create,
    StateOf::InEffect,
    StateOf::Suspension,
    StateOf::Fulfillment,
    StateOf::Violation,
    StateOf::Discharge,
    StateOf::SuccessfulTermination,
    StateOf::UnsuccessfulTermination,
    StateOf::Form,
];

/// The word of a state: the name of its variant.
pub fn state_word(state: StateOf) -> &'static [u8]
    ensures { result.now ≡ words.state_word state }
{
    match state {
        StateOf::Null => b"Null",
        StateOf::Create => b"Create",
        StateOf::InEffect => b"InEffect",
        StateOf::Suspension => b"Suspension",
        StateOf::Fulfillment => b"Fulfillment",
        StateOf::Violation => b"Violation",
        StateOf::Discharge => b"Discharge",
        StateOf::SuccessfulTermination => b"SuccessfulTermination",
        StateOf::UnsuccessfulTermination => b"UnsuccessfulTermination",
        StateOf::Form => b"Form",
    }
}

/// The state with this word, if there is one.
pub fn state_named(word: &[u8]) -> Option<StateOf>
    ensures { result ≡ words.state_named word.now }
{
    STATES
        .iter()
        .copied()
        .find(|state| state_word(*state) == word)
}

/// Whether the states are the same.
pub fn is_same_state(a: StateOf, b: StateOf) -> bool
    ensures { result ≡ same_state a b }
{
    a as u8 == b as u8
}

/// Equal states. It fails only for want of memory.
pub fn copy_states(alloc: Global, states: &[StateOf]) -> Result<List<StateOf>, Memory>
    ensures { IfOk result (λ copied. copied ≡ states.now) }
{
    let mut copied = List::new(alloc);
    for state in states {
        copied.push(*state)?;
    }
    Ok(copied)
}
