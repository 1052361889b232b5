ghost use Rattle.std.specs.Prelude.{◌≡◌, ◌<◌, ◌^◌, map, length, IfOk, IsTrue};
ghost use Rattle.sy_core.specs.Conditions.{count_events};
ghost use Rattle.sy_core.specs.Chronicle.{assuming, internal_events};
ghost use Rattle.sy_core.specs.Soundness.{is_sound_position};
ghost use Rattle.sy_axioms.specs.Machine.KeptMoments.{moment_of, state_in, fired_by, fired_from, round_of};
ghost use Rattle.sy_axioms.specs.Machine.Presents.{moment_now, moments_before, contract_fires_now, fires_now};
ghost use Rattle.sy_axioms.specs.Machine.Ready.{IsReady};

use crate::condition;
use crate::moment::{Events, Moment};
use crate::present::Present;
use std::alloc::Global;
use sy_base::{List, Memory};
use sy_core::{Deed, Position, contract_kinds, kinds_of};
use sy_machines::Fired;

/// How many internal events the deed has.
fn count_events(deed: &Deed) -> u64
    requires { length deed.now.positions < 2 ^ 32 }
    ensures { result ≡ count_events deed.now.positions }
{
    let mut count = contract_kinds().len() as u64;
    for position in deed.positions.items() {
        count += kinds_of(position.form).len() as u64;
    }
    count
}

/// The contract's events whose conditions are true now.
fn contract_round(present: &Present) -> Fired
    ensures { result ≡ fired_by (contract_fires_now present.now) }
{
    Fired {
        resumed: condition::contract_resumed(present),
        suspended: condition::contract_suspended(present),
        terminated: condition::contract_terminated(present),
        completed: condition::contract_completed(present),
        ..Fired::NONE
    }
}

/// The position's events whose conditions are true now.
fn position_round(present: &Present, number: u32, position: &Position) -> Fired
    requires { IsTrue (is_sound_position present.now.deed.now position.now) }
    ensures { result ≡ fired_by (fires_now present.now number position.now) }
{
    Fired {
        exerted: condition::exerted(present, number, position),
        triggered: condition::triggered(present, number, position),
        activated: condition::activated(present, number, position),
        resumed: condition::resumed(present, number),
        suspended: condition::suspended(present, number),
        fulfilled: condition::fulfilled(present, number, position),
        violated: condition::violated(present, number, position),
        expired: condition::expired(present, number, position),
        discharged: condition::discharged(present, number, position),
        terminated: condition::terminated(present, number, position),
        completed: false,
    }
}

/// The events of each position whose conditions are true now.
fn positions_round(alloc: Global, present: &Present) -> Result<List<Fired>, Memory>
    ensures { IfOk result
        (λ fired. fired
        ≡ fired_from present.now.deed.now (moment_now present.now) (moments_before present.now) 0
        present.now.deed.now.positions) }
{
    let mut fired = List::new(alloc);
    let mut number = 0;
    for position in present.deed.positions.items() {
        fired.push(position_round(present, number, position))?;
        number += 1;
    }
    Ok(fired)
}

/// One round: the events whose conditions are true now.
fn next_round(alloc: Global, present: &Present) -> Result<Events, Memory>
    ensures { IfOk result
        (λ events. events ≡ round_of present.now.deed.now (moment_now present.now) (moments_before present.now)) }
{
    Ok(Events {
        contract: contract_round(present),
        positions: positions_round(alloc, present)?,
    })
}

/// The point with the internal events that its rounds give, whatever events it had. The rounds stop
/// at one that changes nothing.
pub(crate) fn with_events(
    alloc: Global,
    deed: &Deed,
    moment: Moment,
    before: &[Moment],
) -> Result<Moment, Memory>
    requires { IsReady deed.now before.now moment }
    ensures moment { IfOk result
        (λ now. moment_of now
        ≡ assuming moment.point moment.happenings (state_in moment.states)
        (internal_events deed.now moment.point moment.happenings (state_in moment.states)
        (map moment_of before.now))) }
    ensures point { IfOk result (λ now. now.point ≡ moment.point) }
{
    let count = count_events(deed);
    let mut now = moment;
    now.events = Events::none(alloc);
    for round in 0..count {
        let present = Present {
            deed,
            moment: &now,
            before,
        };
        let events = next_round(alloc, &present)?;
        if events.is_same(&now.events) {
            return Ok(now);
        }
        now.events = events;
    }
    Ok(now)
}
