ghost use Rattle.std.specs.Prelude.{[], ◌≡◌, ◌&&◌, ◌↔◌, IsTrue, IfOk, int_lt, int_le, not};
ghost use Rattle.std.specs.List.{list_any};
ghost use Rattle.sy_core.specs.Propositions.{situation_holds};
ghost use Rattle.sy_core.specs.Matching.{matches};
ghost use Rattle.sy_core.specs.Chronicle.{exerts};
ghost use Rattle.sy_machines.specs.Fired.{has};
ghost use Rattle.sy_axioms.specs.Machine.KeptMoments.{nothing, set_of, state_in, moment_of};

use std::alloc::Global;
use sy_base::{List, Memory, Point};
use sy_core::{Ev, Situation, StateOf, Target, What, copy_states, is_same_state, matches};
use sy_machines::Fired;
use sy_words::Kind;

/// The internal events of a point. A position that isn't in the list has none.
#[derive(Debug, Drop, PartialEq, Eq)]
pub(crate) struct Events {
    pub contract: Fired,
    pub positions: List<Fired>,
}

/// The states at the start of a point.
#[derive(Debug, Drop)]
pub(crate) struct States {
    pub contract: StateOf,
    pub positions: List<StateOf>,
}

/// A point: what the narrative has there, the states at its start, and its internal events.
#[derive(Debug, Drop)]
pub(crate) struct Moment {
    pub point: Point,
    pub happenings: List<What>,
    pub states: States,
    pub events: Events,
}

impl Events {
    /// No event happens.
    pub fn none(alloc: Global) -> Events
        ensures { result ≡ record { contract = nothing; positions = [] } }
    {
        Events {
            contract: Fired::NONE,
            positions: List::new(alloc),
        }
    }

    /// Whether the events are the same. So `==` answers too.
    pub fn is_same(&self, other: &Events) -> bool
        ensures { IsTrue result ↔ (self.now ≡ other.now) }
    {
        self == other
    }
}

impl States {
    /// Equal states.
    pub fn copy(&self, alloc: Global) -> Result<States, Memory>
        ensures { IfOk result (λ copied. copied ≡ self.now) }
    {
        Ok(States {
            contract: self.contract,
            positions: copy_states(alloc, self.positions.items())?,
        })
    }
}

/// It is the exertion of the power with this number.
fn is_exertion(power: u32, what: &What) -> bool
    ensures { result ≡ exerts power what.now }
{
    match what {
        What::Exert(number) => power == *number,
        What::Event(_, _) => false,
    }
}

impl Moment {
    /// The kinds of internal event that happen to the position with this number.
    pub fn fired_at(&self, position: u32) -> Fired
        ensures { (kind : _) → has result kind
            ≡ (moment_of self.now).seen (Ev.Inner kind (Target.Position position)) }
    {
        match self.events.positions.items().get(position as usize) {
            None => Fired::NONE,
            Some(fired) => *fired,
        }
    }

    /// Whether the internal event happens.
    pub fn happens(&self, kind: Kind, target: Target) -> bool
        ensures { result ≡ set_of self.now.events (kind, target) }
    {
        match target {
            Target::Contract => self.events.contract.has(kind),
            Target::Position(position) => {
                match self.events.positions.items().get(position as usize) {
                    None => false,
                    Some(fired) => fired.has(kind),
                }
            }
        }
    }

    /// The target's state at the start of the point.
    pub fn state(&self, target: Target) -> StateOf
        ensures { result ≡ (moment_of self.now).state target }
    {
        match target {
            Target::Contract => self.states.contract,
            Target::Position(position) => self
                .states
                .positions
                .items()
                .get(position as usize)
                .copied()
                .unwrap_or(StateOf::Null),
        }
    }

    /// Whether the narrative has a happening here that the event matches.
    fn is_matched(&self, ev: &Ev) -> bool
        ensures { result ≡ list_any (matches ev.now) self.now.happenings }
    {
        self.happenings.items().iter().any(|what| matches(ev, what))
    }

    /// Whether the event happens here.
    pub fn sees(&self, ev: &Ev) -> bool
        ensures { result ≡ (moment_of self.now).seen ev.now }
    {
        match ev {
            Ev::Outer(_, _) => self.is_matched(ev),
            Ev::Inner(kind, target) => self.happens(*kind, *target),
        }
    }

    /// Whether the narrative exerts the power with this number here.
    pub fn asks(&self, power: u32) -> bool
        ensures { result ≡ (moment_of self.now).asked power }
    {
        self.happenings
            .items()
            .iter()
            .any(|what| is_exertion(power, what))
    }

    /// Whether the situation holds, by the states at the start.
    pub fn holds(&self, situation: Situation) -> bool
        ensures { result ≡ situation_holds situation (moment_of self.now) }
    {
        let same = is_same_state(self.state(situation.target), situation.state);
        if situation.equal { same } else { !same }
    }

    pub fn sees_before(&self, ev: &Ev, to: Point) -> bool
        ensures { result ≡ ((moment_of self.now).seen ev.now && int_lt self.now.point to) }
    {
        self.sees(ev) && self.point < to
    }

    pub fn sees_after(&self, ev: &Ev, from: Point) -> bool
        ensures { result ≡ ((moment_of self.now).seen ev.now && int_lt from self.now.point) }
    {
        self.sees(ev) && from < self.point
    }

    pub fn sees_between(&self, ev: &Ev, from: Point, to: Point) -> bool
        ensures { result
            ≡ ((moment_of self.now).seen ev.now
            && (int_le from self.now.point && int_lt self.now.point to)) }
    {
        self.sees(ev) && from <= self.point && self.point < to
    }

    pub fn fails_between(&self, situation: Situation, from: Point, to: Point) -> bool
        ensures { result
            ≡ ((int_le from self.now.point && int_lt self.now.point to)
            && not (situation_holds situation (moment_of self.now))) }
    {
        from <= self.point && self.point < to && !self.holds(situation)
    }
}
