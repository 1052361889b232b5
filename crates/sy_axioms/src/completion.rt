ghost use Rattle.std.specs.Prelude.{◌≡◌, ◌&&◌, ◌||◌, not};
ghost use Rattle.sy_core.specs.States.{same_state};
ghost use Rattle.sy_core.specs.Conditions.{is_awaited, is_settled, is_remedy, next_state, is_remedied, all_settled, any_begun, is_complete};
ghost use Rattle.sy_axioms.specs.Machine.KeptMoments.{moment_of};
ghost use Rattle.sy_axioms.specs.Machine.Presents.{moment_now};

use crate::moment::Moment;
use crate::present::Present;
use crate::states::next_state;
use sy_core::{Position, StateOf, Target, is_awaited, is_remedy, is_same_state, is_settled};

/// The position is a remedy of the violated obligation, and is fulfilled after the point.
fn remedies(now: &Moment, number: u32, position: &Position, violated: Target) -> bool
    ensures { result
        ≡ (is_remedy violated position.now
        && same_state (next_state (moment_of now.now) number position.now) StateOf.Fulfillment) }
{
    is_remedy(violated, position)
        && is_same_state(next_state(now, number, position), StateOf::Fulfillment)
}

/// Some remedy of the violated obligation is fulfilled after the point.
fn is_remedied(present: &Present, violated: Target) -> bool
    ensures { result ≡ is_remedied present.now.deed.now (moment_now present.now) violated }
{
    let mut number = 0;
    for position in present.deed.positions.items() {
        if remedies(present.moment, number, position, violated) {
            return true;
        }
        number += 1;
    }
    false
}

/// The contract's completion doesn't wait for the position any more.
fn is_done(present: &Present, number: u32, position: &Position) -> bool
    ensures { result
        ≡ (not (is_awaited position.now.form)
        || is_settled (next_state (moment_now present.now) number position.now)
        (is_remedied present.now.deed.now (moment_now present.now) (Target.Position number))) }
{
    !is_awaited(position.form)
        || is_settled(
            next_state(present.moment, number, position),
            is_remedied(present, Target::Position(number)),
        )
}

/// Each awaited obligation is settled after the point.
fn all_settled(present: &Present) -> bool
    ensures { result ≡ all_settled present.now.deed.now (moment_now present.now) }
{
    let mut number = 0;
    for position in present.deed.positions.items() {
        if !is_done(present, number, position) {
            return false;
        }
        number += 1;
    }
    true
}

/// The position is an awaited obligation that has begun after the point.
fn has_begun(now: &Moment, number: u32, position: &Position) -> bool
    ensures { result
        ≡ (is_awaited position.now.form
        && not (same_state (next_state (moment_of now.now) number position.now) StateOf.Null)) }
{
    is_awaited(position.form) && !is_same_state(next_state(now, number, position), StateOf::Null)
}

/// Some awaited obligation has begun after the point.
fn any_begun(present: &Present) -> bool
    ensures { result ≡ any_begun present.now.deed.now (moment_now present.now) }
{
    let mut number = 0;
    for position in present.deed.positions.items() {
        if has_begun(present.moment, number, position) {
            return true;
        }
        number += 1;
    }
    false
}

/// The contract comes to its good end after the point: every awaited obligation is settled, and some
/// awaited obligation has begun.
pub(crate) fn is_complete(present: &Present) -> bool
    ensures { result ≡ is_complete present.now.deed.now (moment_now present.now) }
{
    all_settled(present) && any_begun(present)
}
