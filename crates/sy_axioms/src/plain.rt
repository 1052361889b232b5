ghost use Rattle.std.specs.Prelude.{◌≡◌, ◌+ℤ◌, ℕ, suc, pos, false, Some, List, map, IfOk, OnOk, OnErr, slice_get, length, ◌<◌, ◌^◌};
ghost use Rattle.sy_base.specs.Points.{IsDated};
ghost use Rattle.sy_core.specs.declared.deed.Deed.{Deed};
ghost use Rattle.sy_core.specs.declared.event.Ev.TheVariants.{Inner};
ghost use Rattle.sy_core.specs.declared.happening.Happening.{Happening};
ghost use Rattle.sy_core.specs.declared.proposition.Prop.{Prop};
ghost use Rattle.sy_core.specs.Propositions.{verdict_at};
ghost use Rattle.sy_core.specs.Chronicle.{first_state, chronicle, state_at, moment_at};
ghost use Rattle.sy_core.specs.Soundness.{HasSoundParts};
ghost use Rattle.sy_core.specs.Tables.{states_of};
ghost use Rattle.sy_axioms.specs.Standing.{StandsFor, HasDatedPoints, next_point};
ghost use Rattle.sy_quiet.specs.Exactly.{HasExactly};

use crate::moment::{Events, Moment, States};
use crate::present::Present;
use crate::rounds::with_events;
use crate::states::states_after;
use crate::verdict::verdict;
use std::alloc::Global;
use sy_base::{List, Memory, Point};
use sy_core::{Deed, Happening, StateOf, Target, Verdict, What};
use sy_words::Kind;

/// The plain evaluator of a deed. It keeps every point from start on, and the next point is worked
/// out by searching through all of them.
#[derive(Debug, Drop)]
pub struct Plain {
    alloc: Global,
    /// The points so far, from start on.
    moments: List<Moment>,
    /// The point that comes next.
    point: Point,
    /// The states at the start of that point.
    states: States,
}

/// Every position is Null at start.
fn first_states(alloc: Global, deed: &Deed) -> Result<List<StateOf>, Memory>
    ensures { IfOk result (λ states. states ≡ states_of first_state 0 deed.now.positions) }
{
    let mut states = List::new(alloc);
    for _position in deed.positions.items() {
        states.push(StateOf::Null)?;
    }
    Ok(states)
}

/// What happened, of each happening.
fn copy_happenings(alloc: Global, at: &[Happening]) -> Result<List<What>, Memory>
    ensures { IfOk result (λ happenings. happenings ≡ map (λ h. h.what) at.now) }
{
    let mut happenings = List::new(alloc);
    for happening in at {
        happenings.push(happening.what.copy(alloc)?)?;
    }
    Ok(happenings)
}

impl Plain {
    /// An evaluator that stands at the deed's start.
    pub fn new(alloc: Global, deed: &Deed) -> Result<Plain, Memory>
        requires { HasSoundParts deed.now }
        ensures start { IfOk result
            (λ plain. (narrative : List Happening) → StandsFor plain deed.now narrative 0) }
        ensures made { IfOk result (λ plain. HasDatedPoints plain deed.now) }
        ensures point { IfOk result (λ plain. next_point plain ≡ deed.now.start) }
    {
        Ok(Plain {
            alloc,
            moments: List::new(alloc),
            point: deed.start,
            states: States {
                contract: StateOf::InEffect,
                positions: first_states(alloc, deed)?,
            },
        })
    }

    /// The point that is evaluated next.
    pub fn now(&self) -> Point
        ensures point { result ≡ next_point self.now }
        ensures stands { (deed : Deed) (narrative : List Happening) (n : ℕ)
            → StandsFor self.now deed narrative n
            → result ≡ deed.start +ℤ pos n }
    {
        self.point
    }

    /// The states of the positions now, in their order.
    pub fn states(&self) -> &[StateOf]
        ensures { (deed : Deed) (narrative : List Happening) (n : ℕ)
            → StandsFor self.now deed narrative n
            → result.now ≡ states_of (state_at deed narrative n) 0 deed.positions }
    {
        self.states.positions.items()
    }

    /// The contract's state now.
    pub fn contract(&self) -> StateOf
        ensures { (deed : Deed) (narrative : List Happening) (n : ℕ)
            → StandsFor self.now deed narrative n
            → result ≡ state_at deed narrative n Target.Contract }
    {
        self.states.contract
    }

    /// Whether the internal event happened at the last point that was evaluated. Before the first one
    /// none did.
    pub fn happened(&self, kind: Kind, target: Target) -> bool
        ensures none { (deed : Deed) (narrative : List Happening)
            → StandsFor self.now deed narrative 0
            → result ≡ false }
        ensures last { (deed : Deed) (narrative : List Happening) (n : ℕ)
            → StandsFor self.now deed narrative (suc n)
            → result ≡ (moment_at deed narrative n).seen (Inner kind target) }
    {
        match self.moments.items().split_last() {
            None => false,
            Some((moment, _)) => moment.happens(kind, target),
        }
    }

    /// The verdict of the deed's postcondition with this number at the last point that was evaluated.
    /// Before the first one it is Open.
    pub fn post(&self, deed: &Deed, number: u32) -> Verdict
        requires few { length deed.now.positions < 2 ^ 32 }
        requires sound { HasSoundParts deed.now }
        requires made { HasDatedPoints self.now deed.now }
        requires post { number < length deed.now.posts }
        ensures none { (narrative : List Happening) → StandsFor self.now deed.now narrative 0
            → result ≡ Verdict.Open }
        ensures last { (narrative : List Happening) (n : ℕ) (prop : Prop)
            → StandsFor self.now deed.now narrative (suc n)
            → slice_get deed.now.posts number ≡ Some prop
            → result ≡ verdict_at deed.now.unit (moment_at deed.now narrative n)
            (chronicle deed.now narrative n) prop }
    {
        match self.moments.items().split_last() {
            None => Verdict::Open,
            Some((moment, before)) => {
                let present = Present {
                    deed,
                    moment,
                    before,
                };
                verdict(&present, &deed.posts.items()[number as usize])
            }
        }
    }

    /// Evaluates the next point, which is a date of the deed's unit and at which exactly these
    /// happenings stand. On want of memory all stays as it was.
    pub fn step(&mut self, deed: &Deed, at: &[Happening]) -> Result<(), Memory>
        requires few { length deed.now.positions < 2 ^ 32 }
        requires sound { HasSoundParts deed.now }
        requires made { HasDatedPoints self.old deed.now }
        requires dated { IsDated deed.now.unit (next_point self.old) }
        ensures next { IfOk result
            (λ _. (narrative : List Happening) (n : ℕ) → StandsFor self.old deed.now narrative n
            → HasExactly narrative (deed.now.start +ℤ pos n) at.now
            → StandsFor self.new deed.now narrative (suc n)) }
        ensures made { HasDatedPoints self.new deed.now }
        ensures point { OnOk result (next_point self.new ≡ next_point self.old +ℤ pos 1) }
        ensures err { OnErr result (self.new ≡ self.old) }
    {
        let moment = Moment {
            point: self.point,
            happenings: copy_happenings(self.alloc, at)?,
            states: self.states.copy(self.alloc)?,
            events: Events::none(self.alloc),
        };
        let moment = with_events(self.alloc, deed, moment, self.moments.items())?;
        let states = states_after(self.alloc, deed, &moment)?;
        self.moments.push(moment)?;
        self.states = states;
        self.point += 1;
        Ok(())
    }
}
