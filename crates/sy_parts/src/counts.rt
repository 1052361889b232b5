ghost use Rattle.std.specs.Prelude.{◌≡◌, ◌+◌, ◌-◌, ◌^◌, ◌&&◌, length, map, min};
ghost use Rattle.std.specs.List.{list_all, sum, sum_by};
ghost use Rattle.sy_core.specs.Limits as limits;
ghost use Rattle.sy_core.specs.Wakes.{dates_of_deed};
ghost use Rattle.sy_parts.specs.Counts as counts;

use sy_core::{Base, Choices, DateTerm, Deed, Ev, EventDecl, Goal, Position, Prop};

/// How many propositions, guards and date terms something has; each is at most the greatest `usize`.
#[derive(Clone, Copy)]
struct Counts {
    propositions: usize,
    guards: usize,
    dates: usize,
}

/// Nothing is counted.
fn nothing() -> Counts
    ensures { result ≡ record { propositions = 0; guards = 0; dates = 0 } }
{
    Counts {
        propositions: 0,
        guards: 0,
        dates: 0,
    }
}

/// One proposition without parts.
fn one(guards: usize, dates: usize) -> Counts
    ensures { result ≡ record { propositions = 1; guards = guards; dates = dates } }
{
    Counts {
        propositions: 1,
        guards,
        dates,
    }
}

/// Both together.
fn sum(a: Counts, b: Counts) -> Counts
    ensures propositions { result.propositions ≡ min (a.propositions + b.propositions) (2 ^ 64 - 1) }
    ensures guards { result.guards ≡ min (a.guards + b.guards) (2 ^ 64 - 1) }
    ensures dates { result.dates ≡ min (a.dates + b.dates) (2 ^ 64 - 1) }
{
    Counts {
        propositions: a.propositions.saturating_add(b.propositions),
        guards: a.guards.saturating_add(b.guards),
        dates: a.dates.saturating_add(b.dates),
    }
}

/// The guards of an event.
fn event_guards(ev: &Ev) -> usize
    ensures { result ≡ limits.guards_of_event ev.now }
{
    match ev {
        Ev::Outer(_, guards) => guards.items().len(),
        Ev::Inner(_, _) => 0,
    }
}

/// The guards of a date term.
fn date_guards(term: &DateTerm) -> usize
    ensures { result ≡ limits.guards_of_date term.now }
{
    match &term.base {
        Base::Fixed(_) => 0,
        Base::First(ev) => event_guards(ev),
    }
}

/// The guards of an event and of a date term; at most the greatest `usize`.
fn dated_guards(ev: &Ev, date: &DateTerm) -> usize
    ensures { result ≡ min (limits.guards_of_event ev.now + limits.guards_of_date date.now) (2 ^ 64 - 1) }
{
    event_guards(ev).saturating_add(date_guards(date))
}

/// The counts of some propositions together.
#[cycle(counting)]
fn of_all(parts: &[Prop]) -> Counts
    ensures propositions { result.propositions ≡ min (sum (map limits.size_of parts.now)) (2 ^ 64 - 1) }
    ensures guards { result.guards ≡ min (sum (map limits.guards_of parts.now)) (2 ^ 64 - 1) }
    ensures dates { result.dates ≡ min (sum (map counts.dates_in parts.now)) (2 ^ 64 - 1) }
{
    let mut counts = nothing();
    'part: for part in parts {
        counts = sum(counts, of_prop(part));
    }
    counts
}

/// The counts of a proposition with its parts and theirs.
#[cycle(counting)]
fn of_prop(prop: &Prop) -> Counts
    ensures propositions { result.propositions ≡ min (limits.size_of prop.now) (2 ^ 64 - 1) }
    ensures guards { result.guards ≡ min (limits.guards_of prop.now) (2 ^ 64 - 1) }
    ensures dates { result.dates ≡ min (counts.dates_in prop.now) (2 ^ 64 - 1) }
{
    match prop {
        Prop::Const(_) | Prop::Holds(_) => one(0, 0),
        Prop::Not(part) => sum(one(0, 0), of_prop(part.get())),
        Prop::All(parts) => sum(one(0, 0), of_all(parts.as_slice())),
        Prop::Any(parts) => sum(one(0, 0), of_all(parts.as_slice())),
        Prop::Happens(ev) => one(event_guards(ev), 0),
        Prop::Before(ev, date) | Prop::After(ev, date) => one(dated_guards(ev, date), 1),
        Prop::Within(ev, from, to) => {
            one(dated_guards(ev, from).saturating_add(date_guards(to)), 2)
        }
        Prop::Occurs(_, from, to) => one(date_guards(from).saturating_add(date_guards(to)), 2),
    }
}

/// The counts of a duty; an act has none.
fn of_goal(goal: &Goal) -> Counts
    ensures propositions { result.propositions ≡ min (limits.of_duty limits.size_of goal.now) (2 ^ 64 - 1) }
    ensures guards { result.guards ≡ min (limits.of_duty limits.guards_of goal.now) (2 ^ 64 - 1) }
    ensures dates { result.dates ≡ min (limits.of_duty counts.dates_in goal.now) (2 ^ 64 - 1) }
{
    match goal {
        Goal::Duty(consequent) => of_prop(consequent),
        Goal::Act(_) => nothing(),
    }
}

/// The counts of a position's propositions.
fn of_position(position: &Position) -> Counts
    ensures propositions { result.propositions ≡ min (limits.of_position limits.size_of position.now) (2 ^ 64 - 1) }
    ensures guards { result.guards ≡ min (limits.of_position limits.guards_of position.now) (2 ^ 64 - 1) }
    ensures dates { result.dates ≡ min (limits.of_position counts.dates_in position.now) (2 ^ 64 - 1) }
{
    let conditions = sum(of_prop(&position.trigger), of_prop(&position.antecedent));
    sum(conditions, of_goal(&position.goal))
}

/// The counts of the propositions of some positions.
fn of_positions(positions: &[Position]) -> Counts
    ensures propositions { result.propositions ≡ min (sum_by (limits.of_position limits.size_of) positions.now) (2 ^ 64 - 1) }
    ensures guards { result.guards ≡ min (sum_by (limits.of_position limits.guards_of) positions.now) (2 ^ 64 - 1) }
    ensures dates { result.dates ≡ min (sum_by (limits.of_position counts.dates_in) positions.now) (2 ^ 64 - 1) }
{
    let mut counts = nothing();
    'position: for position in positions {
        counts = sum(counts, of_position(position));
    }
    counts
}

/// The counts of all propositions of a deed.
fn of_deed(deed: &Deed) -> Counts
    ensures propositions { result.propositions ≡ min (limits.of_deed limits.size_of deed.now) (2 ^ 64 - 1) }
    ensures guards { result.guards ≡ min (limits.of_deed limits.guards_of deed.now) (2 ^ 64 - 1) }
    ensures dates { result.dates ≡ min (limits.of_deed counts.dates_in deed.now) (2 ^ 64 - 1) }
{
    sum(
        of_positions(deed.positions.items()),
        of_all(deed.posts.items()),
    )
}

/// There are fewer than 2^32.
fn is_few(count: usize) -> bool
    ensures { result ≡ limits.is_few count }
{
    count < 1 << 32
}

/// The propositions, guards and date terms of a deed are fewer than 2^32 each.
fn phrases_are_few(deed: &Deed) -> bool
    ensures { result
        ≡ (limits.is_few (limits.of_deed limits.size_of deed.now) && limits.is_few (limits.of_deed limits.guards_of deed.now)
        && limits.is_few (length (dates_of_deed deed.now))) }
{
    let counts = of_deed(deed);
    let propositions = is_few(counts.propositions);
    let guards = is_few(counts.guards);
    let dates = is_few(counts.dates);
    propositions && guards && dates
}

/// The attributes of each event are fewer than 2^32.
fn attributes_are_few(events: &[EventDecl]) -> bool
    ensures { result ≡ list_all (λ event. limits.is_few (length event.attrs)) events.now }
{
    events.iter().all(|event| is_few(event.attrs.items().len()))
}

/// The constants of each enumeration are fewer than 2^32.
fn constants_are_few(enumerations: &[Choices]) -> bool
    ensures { result ≡ list_all (λ choices. limits.is_few (length choices.names)) enumerations.now }
{
    enumerations
        .iter()
        .all(|choices| is_few(choices.names.items().len()))
}

/// The propositions, guards, date terms, postconditions and enumerations of a deed, the attributes
/// of each event and the constants of each enumeration are fewer than 2^32 each. It takes no memory.
pub fn has_few_parts(deed: &Deed) -> bool
    ensures { result ≡ counts.has_few_parts deed.now }
{
    let phrases = phrases_are_few(deed);
    let posts = is_few(deed.posts.items().len());
    let attributes = attributes_are_few(deed.events.items());
    let enumerations = is_few(deed.choices.items().len());
    let constants = constants_are_few(deed.choices.items());
    phrases && posts && attributes && enumerations && constants
}
