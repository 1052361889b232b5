ghost use Rattle.std.specs.Prelude.{◌≡◌, ◌+◌, ◌≤◌, ◌<◌, ◌^◌, ◌≤ℤ◌, ◌-ℤ◌, ℕ, suc, List, IfOk, length, map, nat_abs, replicate};
ghost use Rattle.sy_base.specs.Points.{IsDated};
ghost use Rattle.sy_core.specs.declared.happening.Happening.{Happening};
ghost use Rattle.sy_core.specs.declared.state.StateOf.TheVariants as state;
ghost use Rattle.sy_core.specs.declared.table.Verdict.TheVariants as verdict;
ghost use Rattle.sy_core.specs.Chronicle.{chronicle, moment_at, state_at};
ghost use Rattle.sy_core.specs.Propositions.{verdict_at};
ghost use Rattle.sy_core.specs.Soundness.{IsSound};
ghost use Rattle.sy_core.specs.Tables as tables;
ghost use Rattle.sy_point.specs.Counting.{wakes, wakes_up_to};
ghost use Rattle.sy_point.specs.Standing.{IsMadeFor, StandsFor};

use crate::course::Course;
use std::alloc::Global;
use std::sync::ledger::Ledger;
use sy_base::{List, Memory, Point};
use sy_core::{Deed, StateOf, Table, Target, Verdict};
use sy_outside::Steps;
use sy_point::Core;
use sy_story::Story;

/// So many positions, each of which is Null.
fn all_null(alloc: Global, positions: usize) -> Result<List<StateOf>, Memory>
    ensures { IfOk result (λ states. states ≡ replicate positions state.Null) }
{
    let mut states = List::new(alloc);
    for _position in 0..positions {
        states.push(StateOf::Null)?;
    }
    Ok(states)
}

/// So many postconditions, each of which is Open.
fn all_open(alloc: Global, posts: usize) -> Result<List<Verdict>, Memory>
    ensures { IfOk result (λ verdicts. verdicts ≡ replicate posts verdict.Open) }
{
    let mut verdicts = List::new(alloc);
    for _post in 0..posts {
        verdicts.push(Verdict::Open)?;
    }
    Ok(verdicts)
}

/// The state of each position now.
fn states(alloc: Global, deed: &Deed, core: &Core) -> Result<List<StateOf>, Memory>
    requires few { length deed.now.positions < 2 ^ 32 }
    requires made { IsMadeFor core.now deed.now }
    ensures { IfOk result (λ states. (narrative : List Happening) (n : ℕ) → StandsFor core.now deed.now narrative n
        → states ≡ tables.states_of (state_at deed.now narrative n) 0 deed.now.positions) }
{
    let mut states = List::new(alloc);
    let mut number = 0;
    for _position in deed.positions.items() {
        states.push(core.state(Target::Position(number)))?;
        number += 1;
    }
    Ok(states)
}

/// The verdict of each postcondition at the point before now.
fn verdicts(alloc: Global, deed: &Deed, core: &Core) -> Result<List<Verdict>, Memory>
    requires posts { length deed.now.posts < 2 ^ 32 }
    ensures { IfOk result (λ verdicts. (narrative : List Happening) (n : ℕ) → StandsFor core.now deed.now narrative (suc n)
        → verdicts ≡ map (verdict_at deed.now.unit (moment_at deed.now narrative n) (chronicle deed.now narrative n)) deed.now.posts) }
{
    let mut verdicts = List::new(alloc);
    let mut number = 0;
    for _post in deed.posts.items() {
        verdicts.push(core.post(number))?;
        number += 1;
    }
    Ok(verdicts)
}

/// The table as of a date before start.
fn table_before(alloc: Global, deed: &Deed, date: Point) -> Result<Table, Memory>
    requires { IsDated deed.now.unit date }
    ensures { IfOk result (λ table. table ≡ tables.table_before deed.now date) }
{
    Ok(Table {
        at: date,
        contract: StateOf::Form,
        states: all_null(alloc, deed.positions.items().len())?,
        violations: List::new(alloc),
        voids: List::new(alloc),
        posts: all_open(alloc, deed.posts.items().len())?,
    })
}

/// The table as of a date from start on.
fn table_after<L: Ledger>(
    alloc: Global,
    deed: &Deed,
    story: &Story,
    date: Point,
    steps: &mut Steps<L>,
) -> Result<Table, Memory>
    requires sound { IsSound deed.now }
    requires dated { IsDated deed.now.unit date }
    requires begun { deed.now.start ≤ℤ date }
    ensures table { IfOk result (λ table. table ≡ tables.table_after deed.now story.now.happenings (nat_abs (date -ℤ deed.now.start))) }
    ensures ticks { steps.new ≤ steps.old + wakes deed.now story.now.happenings (suc (nat_abs (date -ℤ deed.now.start))) }
{
    let Course {
        core,
        violations,
        voids,
    } = Course::of(alloc, deed, story, date, steps)?;
    Ok(Table {
        at: date,
        contract: core.state(Target::Contract),
        states: states(alloc, deed, &core)?,
        violations,
        voids,
        posts: verdicts(alloc, deed, &core)?,
    })
}

/// What stands as of a date, by what the story holds. It takes a step for each wake point up to the
/// date.
pub(crate) fn table_as_of<L: Ledger>(
    alloc: Global,
    deed: &Deed,
    story: &Story,
    date: Point,
    steps: &mut Steps<L>,
) -> Result<Table, Memory>
    requires sound { IsSound deed.now }
    requires dated { IsDated deed.now.unit date }
    ensures table { IfOk result (λ table. table ≡ tables.table_as_of deed.now story.now.happenings date) }
    ensures ticks { steps.new ≤ steps.old + wakes_up_to deed.now story.now.happenings date }
{
    if date < deed.start {
        table_before(alloc, deed, date)
    } else {
        table_after(alloc, deed, story, date, steps)
    }
}
