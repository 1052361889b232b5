ghost use Rattle.std.specs.Prelude.{◌≡◌, ◌&&◌, IsTrue};
ghost use Rattle.sy_core.specs.Conditions.{is_act, happened, was, live, alive, in_force, is_created, remains_in_force, duty_verdict, by};
ghost use Rattle.sy_core.specs.Soundness.{is_sound_goal, is_sound_position};
ghost use Rattle.sy_axioms.specs.Machine.KeptMoments.{moment_of};
ghost use Rattle.sy_axioms.specs.Machine.Presents.{moment_now, moments_before, contract_fires_now, fires_now};

use crate::completion::is_complete;
use crate::moment::Moment;
use crate::present::Present;
use crate::verdict::verdict;
use sy_core::{
    Goal, Position, StateOf, Target, Verdict, acts_on_contract, has_holds, is_act, is_false,
    is_obligation, is_power, is_same_state, is_true, survives,
};
use sy_words::{Form, Kind, Verb};

/// The target was in the state at the start of the point.
fn was(now: &Moment, target: Target, state: StateOf) -> bool
    ensures { result ≡ was (moment_of now.now) target state }
{
    is_same_state(now.state(target), state)
}

/// The position does this to that target, and is exerted.
fn performs(now: &Moment, number: u32, position: &Position, verb: Verb, target: Target) -> bool
    ensures { result
        ≡ (is_act verb target position.now.goal
        && happened (moment_of now.now) Kind.Exerted (Target.Position number)) }
{
    is_act(verb, target, &position.goal) && now.happens(Kind::Exerted, Target::Position(number))
}

/// Some power that does this to that target is exerted.
fn by(present: &Present, verb: Verb, target: Target) -> bool
    ensures { result ≡ by present.now.deed.now (moment_now present.now) verb target }
{
    let mut number = 0;
    for position in present.deed.positions.items() {
        if performs(present.moment, number, position, verb, target) {
            return true;
        }
        number += 1;
    }
    false
}

/// The contract is in effect, or the form doesn't heed it.
fn live(now: &Moment, form: Form) -> bool
    ensures { result ≡ live (moment_of now.now) form }
{
    survives(form) || was(now, Target::Contract, StateOf::InEffect)
}

/// The position was created and hasn't come to its end, or is created here.
fn alive(now: &Moment, target: Target) -> bool
    ensures { result ≡ alive (moment_of now.now) target }
{
    was(now, target, StateOf::Create)
        || was(now, target, StateOf::InEffect)
        || was(now, target, StateOf::Suspension)
        || now.happens(Kind::Triggered, target)
}

/// The position was in effect, or comes into effect here.
fn in_force(now: &Moment, target: Target) -> bool
    ensures { result ≡ in_force (moment_of now.now) target }
{
    was(now, target, StateOf::InEffect)
        || now.happens(Kind::Activated, target)
        || now.happens(Kind::Resumed, target)
}

/// The position was created and waits for its antecedent, or is created here.
fn is_created(now: &Moment, target: Target) -> bool
    ensures { result ≡ is_created (moment_of now.now) target }
{
    was(now, target, StateOf::Create) || now.happens(Kind::Triggered, target)
}

/// The duty is in force, and nothing here suspends or ends it.
fn remains_in_force(now: &Moment, target: Target, form: Form) -> bool
    ensures { result ≡ remains_in_force (moment_of now.now) target form }
{
    live(now, form)
        && in_force(now, target)
        && !now.happens(Kind::Suspended, target)
        && !now.happens(Kind::Discharged, target)
        && !now.happens(Kind::Terminated, target)
}

/// The verdict of what a position demands; a power demands nothing, so that it stays Open.
fn duty_verdict(present: &Present, form: Form, goal: &Goal) -> Verdict
    requires { IsTrue (is_sound_goal present.now.deed.now form goal.now) }
    ensures { result
        ≡ duty_verdict present.now.deed.now.unit (moment_now present.now) (moments_before present.now) goal.now }
{
    match goal {
        Goal::Duty(consequent) => verdict(present, consequent),
        Goal::Act(_) => Verdict::Open,
    }
}

/// A suspended contract is resumed where a power that resumes it is exerted.
pub(crate) fn contract_resumed(present: &Present) -> bool
    ensures { result ≡ contract_fires_now present.now Kind.Resumed }
{
    was(present.moment, Target::Contract, StateOf::Suspension)
        && by(present, Verb::Resumes, Target::Contract)
}

/// A contract in effect is suspended where a power that suspends it is exerted.
pub(crate) fn contract_suspended(present: &Present) -> bool
    ensures { result ≡ contract_fires_now present.now Kind.Suspended }
{
    was(present.moment, Target::Contract, StateOf::InEffect)
        && by(present, Verb::Suspends, Target::Contract)
}

/// The contract is terminated where a power that terminates it is exerted.
pub(crate) fn contract_terminated(present: &Present) -> bool
    ensures { result ≡ contract_fires_now present.now Kind.Terminated }
{
    by(present, Verb::Terminates, Target::Contract)
}

/// A contract in effect is completed where nothing suspends or terminates it, every obligation that
/// it waits for is settled after the point, and one of them has begun.
pub(crate) fn contract_completed(present: &Present) -> bool
    ensures { result ≡ contract_fires_now present.now Kind.Completed }
{
    was(present.moment, Target::Contract, StateOf::InEffect)
        && !present.moment.happens(Kind::Suspended, Target::Contract)
        && !present.moment.happens(Kind::Terminated, Target::Contract)
        && is_complete(present)
}

/// A power in effect is exerted where the narrative exerts it and the contract is in effect. Under a
/// suspended contract only a power over the contract itself can be exerted.
pub(crate) fn exerted(present: &Present, number: u32, position: &Position) -> bool
    ensures { result ≡ fires_now present.now number position.now Kind.Exerted }
{
    let now = present.moment;
    is_power(position.form)
        && now.asks(number)
        && was(now, Target::Position(number), StateOf::InEffect)
        && (was(now, Target::Contract, StateOf::InEffect)
            || (was(now, Target::Contract, StateOf::Suspension)
                && acts_on_contract(&position.goal)))
}

/// A position that isn't there yet is triggered where its trigger is True, or a power triggers it.
pub(crate) fn triggered(present: &Present, number: u32, position: &Position) -> bool
    requires { IsTrue (is_sound_position present.now.deed.now position.now) }
    ensures { result ≡ fires_now present.now number position.now Kind.Triggered }
{
    let target = Target::Position(number);
    live(present.moment, position.form)
        && was(present.moment, target, StateOf::Null)
        && (is_true(verdict(present, &position.trigger)) || by(present, Verb::Triggers, target))
}

/// A created position is activated where its antecedent is True.
pub(crate) fn activated(present: &Present, number: u32, position: &Position) -> bool
    requires { IsTrue (is_sound_position present.now.deed.now position.now) }
    ensures { result ≡ fires_now present.now number position.now Kind.Activated }
{
    live(present.moment, position.form)
        && is_created(present.moment, Target::Position(number))
        && is_true(verdict(present, &position.antecedent))
}

/// A suspended position is resumed where a power that resumes it is exerted.
pub(crate) fn resumed(present: &Present, number: u32) -> bool
    ensures { (position : _) → result ≡ fires_now present.now number position Kind.Resumed }
{
    let target = Target::Position(number);
    was(present.moment, target, StateOf::Suspension) && by(present, Verb::Resumes, target)
}

/// A position in force is suspended where a power that suspends it is exerted, and it is not a power
/// that is exerted here itself.
pub(crate) fn suspended(present: &Present, number: u32) -> bool
    ensures { (position : _) → result ≡ fires_now present.now number position Kind.Suspended }
{
    let target = Target::Position(number);
    in_force(present.moment, target)
        && by(present, Verb::Suspends, target)
        && !present.moment.happens(Kind::Exerted, target)
}

/// An obligation that remains in force is fulfilled where its consequent is True.
pub(crate) fn fulfilled(present: &Present, number: u32, position: &Position) -> bool
    requires { IsTrue (is_sound_position present.now.deed.now position.now) }
    ensures { result ≡ fires_now present.now number position.now Kind.Fulfilled }
{
    is_obligation(position.form)
        && remains_in_force(present.moment, Target::Position(number), position.form)
        && is_true(duty_verdict(present, position.form, &position.goal))
}

/// An obligation that remains in force is violated where its consequent is False.
pub(crate) fn violated(present: &Present, number: u32, position: &Position) -> bool
    requires { IsTrue (is_sound_position present.now.deed.now position.now) }
    ensures { result ≡ fires_now present.now number position.now Kind.Violated }
{
    is_obligation(position.form)
        && remains_in_force(present.moment, Target::Position(number), position.form)
        && is_false(duty_verdict(present, position.form, &position.goal))
}

/// A created position expires where its antecedent is False. An antecedent that asks for a state now
/// can still come true, so that it never makes a position expire.
pub(crate) fn expired(present: &Present, number: u32, position: &Position) -> bool
    requires { IsTrue (is_sound_position present.now.deed.now position.now) }
    ensures { result ≡ fires_now present.now number position.now Kind.Expired }
{
    live(present.moment, position.form)
        && is_created(present.moment, Target::Position(number))
        && !has_holds(&position.antecedent)
        && is_false(verdict(present, &position.antecedent))
}

/// An obligation that hasn't come to its end is discharged where a power that discharges it is
/// exerted.
pub(crate) fn discharged(present: &Present, number: u32, position: &Position) -> bool
    ensures { result ≡ fires_now present.now number position.now Kind.Discharged }
{
    let target = Target::Position(number);
    is_obligation(position.form)
        && alive(present.moment, target)
        && by(present, Verb::Discharges, target)
}

/// A position that hasn't come to its end is terminated where a power is exerted that terminates it,
/// or the contract with it, unless it survives the contract. A power that is exerted here is not.
pub(crate) fn terminated(present: &Present, number: u32, position: &Position) -> bool
    ensures { result ≡ fires_now present.now number position.now Kind.Terminated }
{
    let target = Target::Position(number);
    alive(present.moment, target)
        && (by(present, Verb::Terminates, target)
            || (!survives(position.form) && by(present, Verb::Terminates, Target::Contract)))
        && !present.moment.happens(Kind::Exerted, target)
}
