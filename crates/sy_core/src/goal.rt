ghost use Rattle.std.specs.Prelude.{◌≡◌, ◌==◌};
ghost use Rattle.sy_core.specs.Mentions.{same_target};
ghost use Rattle.sy_core.specs.Conditions.{verb_number, is_act, acts_on_contract, is_power, is_obligation, survives, is_awaited, is_settled};

use crate::kind::Target;
use crate::position::Goal;
use crate::state::StateOf;
use sy_words::{Form, Verb};

/// The form is that of a power.
pub fn is_power(form: Form) -> bool
    ensures { result ≡ is_power form }
{
    matches!(form, Form::Power)
}

/// The form is that of an obligation, surviving or not.
pub fn is_obligation(form: Form) -> bool
    ensures { result ≡ is_obligation form }
{
    !matches!(form, Form::Power)
}

/// The form is that of a surviving obligation.
pub fn survives(form: Form) -> bool
    ensures { result ≡ survives form }
{
    matches!(form, Form::Surviving)
}

/// The contract's completion waits for positions of the form.
pub fn is_awaited(form: Form) -> bool
    ensures { result ≡ is_awaited form }
{
    matches!(form, Form::Obligation)
}

/// An obligation in this state is settled: not begun, fulfilled, discharged, or violated and
/// remedied.
pub fn is_settled(state: StateOf, remedied: bool) -> bool
    ensures { result ≡ is_settled state remedied }
{
    match state {
        StateOf::Null | StateOf::Fulfillment | StateOf::Discharge => true,
        StateOf::Violation => remedied,
        _ => false,
    }
}

/// The targets are the same.
pub fn is_same_target(a: Target, b: Target) -> bool
    ensures { result ≡ same_target a b }
{
    match (a, b) {
        (Target::Contract, Target::Contract) => true,
        (Target::Position(i), Target::Position(j)) => i == j,
        _ => false,
    }
}

/// The verbs are the same.
fn is_same_verb(a: Verb, b: Verb) -> bool
    ensures { result ≡ (verb_number a == verb_number b) }
{
    a as u8 == b as u8
}

/// The goal is the act that does this to that target.
pub fn is_act(verb: Verb, target: Target, goal: &Goal) -> bool
    ensures { result ≡ is_act verb target goal.now }
{
    match goal {
        Goal::Act(act) => is_same_verb(act.verb, verb) && is_same_target(act.target, target),
        Goal::Duty(_) => false,
    }
}

/// The goal is an act on the contract.
pub fn acts_on_contract(goal: &Goal) -> bool
    ensures { result ≡ acts_on_contract goal.now }
{
    match goal {
        Goal::Act(act) => is_same_target(act.target, Target::Contract),
        Goal::Duty(_) => false,
    }
}
