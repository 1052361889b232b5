ghost use Rattle.std.specs.Prelude.{◌≡◌, ◌+◌, ◌<◌, ◌^◌, IfOk, length};
ghost use Rattle.sy_core.specs.Conditions.{next_state};
ghost use Rattle.sy_axioms.specs.Machine.KeptMoments.{moment_of, next_states, states_past};

use crate::moment::{Moment, States};
use std::alloc::Global;
use sy_base::{List, Memory};
use sy_core::{Deed, Position, StateOf, Target};
use sy_machines::next_contract;

/// The state of the position with this number after the point.
pub(crate) fn next_state(now: &Moment, number: u32, position: &Position) -> StateOf
    ensures { result ≡ next_state (moment_of now.now) number position.now }
{
    let state = now.state(Target::Position(number));
    sy_machines::next_state(position.form, state, &now.fired_at(number))
}

/// The state of each position after the point.
fn positions_after(alloc: Global, deed: &Deed, now: &Moment) -> Result<List<StateOf>, Memory>
    requires { length deed.now.positions < 2 ^ 32 }
    ensures { IfOk result
        (λ states. states ≡ next_states (moment_of now.now) 0 deed.now.positions) }
{
    let mut states = List::new(alloc);
    let mut number = 0;
    for position in deed.positions.items() {
        states.push(next_state(now, number, position))?;
        number += 1;
    }
    Ok(states)
}

/// The states after the point.
pub(crate) fn states_after(alloc: Global, deed: &Deed, now: &Moment) -> Result<States, Memory>
    requires { length deed.now.positions < 2 ^ 32 }
    ensures { IfOk result (λ states. states ≡ states_past deed.now now.now) }
{
    Ok(States {
        contract: next_contract(now.states.contract, &now.events.contract),
        positions: positions_after(alloc, deed, now)?,
    })
}
