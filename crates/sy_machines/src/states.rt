ghost use Rattle.std.specs.Prelude.{◌≡◌};
ghost use Rattle.sy_core.specs.States.{expired_state, state_by, last_state, state_after, contract_after};
ghost use Rattle.sy_machines.specs.Fired.{has};

use crate::fired::Fired;
use sy_core::{StateOf, contract_kinds, kinds_of};
use sy_words::{Form, Kind};

/// An expired power has failed, and an expired obligation is discharged.
fn expired_state(form: Form) -> StateOf
    ensures { result ≡ expired_state form }
{
    match form {
        Form::Power => StateOf::UnsuccessfulTermination,
        Form::Obligation | Form::Surviving => StateOf::Discharge,
    }
}

/// The state that an event of the kind gives.
fn state_by(form: Form, kind: Kind) -> StateOf
    ensures { result ≡ state_by form kind }
{
    match kind {
        Kind::Triggered => StateOf::Create,
        Kind::Activated | Kind::Resumed => StateOf::InEffect,
        Kind::Suspended => StateOf::Suspension,
        Kind::Fulfilled => StateOf::Fulfillment,
        Kind::Violated => StateOf::Violation,
        Kind::Expired => expired_state(form),
        Kind::Discharged => StateOf::Discharge,
        Kind::Terminated => StateOf::UnsuccessfulTermination,
        Kind::Exerted | Kind::Completed => StateOf::SuccessfulTermination,
    }
}

/// The state that the last of the kinds that happened gives; with none the state stays.
fn last_state(form: Form, kinds: &[Kind], fired: &Fired, state: StateOf) -> StateOf
    ensures { result ≡ last_state form kinds.now (has fired.now) state }
{
    let mut last = state;
    for kind in kinds {
        if fired.has(*kind) {
            last = state_by(form, *kind);
        }
    }
    last
}

/// The state of a position of the form after a point, by its state at the start of the point and by
/// what happened to it there.
pub fn next_state(form: Form, state: StateOf, fired: &Fired) -> StateOf
    ensures { result ≡ state_after form (has fired.now) state }
{
    last_state(form, kinds_of(form), fired, state)
}

/// The contract's state after a point, by its state at the start of the point and by what happened
/// to it there.
pub fn next_contract(state: StateOf, fired: &Fired) -> StateOf
    ensures { result ≡ contract_after (has fired.now) state }
{
    // The kinds of the contract give the same states for every form.
    last_state(Form::Obligation, contract_kinds(), fired, state)
}
