ghost use Rattle.std.specs.Prelude.{◌≡◌};
ghost use Rattle.sy_core.specs.States.{kinds_of, contract_kinds};

use sy_words::{Form, Kind};

/// What an internal event, an act or a situation is about.
#[derive(Clone, Copy, Debug, PartialEq, Eq)]
pub enum Target {
    /// The position with this place in the deed's `positions`.
    Position(u32),
    Contract,
}

const OBLIGATION_KINDS: [Kind; 9] = [
    Kind::Triggered,
    Kind::Activated,
    Kind::Resumed,
    Kind::Suspended,
    Kind::Fulfilled,
    Kind::Violated,
    Kind::Expired,
    Kind::Discharged,
    Kind::Terminated,
];

const POWER_KINDS: [Kind; 7] = [
    Kind::Exerted,
    Kind::Triggered,
    Kind::Activated,
    Kind::Resumed,
    Kind::Suspended,
    Kind::Expired,
    Kind::Terminated,
];

const CONTRACT_KINDS: [Kind; 4] = [
    Kind::Resumed,
    Kind::Suspended,
    Kind::Terminated,
    Kind::Completed,
];

/// The kinds of internal event of a position of the form, in the order of kinds.
pub fn kinds_of(form: Form) -> &'static [Kind]
    ensures { result.now ≡ kinds_of form }
{
    match form {
        Form::Power => &POWER_KINDS,
        _ => &OBLIGATION_KINDS,
    }
}

/// The kinds of internal event of the contract, in the order of kinds.
pub fn contract_kinds() -> &'static [Kind]
    ensures { result.now ≡ contract_kinds }
{
    &CONTRACT_KINDS
}
