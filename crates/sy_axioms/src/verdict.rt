ghost use Rattle.std.specs.Prelude.{◌≡◌, ◌≤◌, length, IsTrue};
ghost use Rattle.std.specs.List.{list_all};
ghost use Rattle.sy_base.specs.Points.{IsDated};
ghost use Rattle.sy_core.specs.declared.proposition.Prop.TheOpen as PropOpen;
ghost use Rattle.sy_core.specs.Moments.{seen_ever, seen_before, seen_after, seen_between, first_point, base_value, all_added, date_value};
ghost use Rattle.sy_core.specs.Propositions.{verdict_by, fails_within};
ghost use Rattle.sy_core.specs.Soundness.{is_duration_of, is_sound_date, is_sound_prop};
ghost use Rattle.sy_axioms.specs.Machine.Presents.{moments_to_now, step_now, verdict_now};

use crate::present::Present;
use sy_base::{Duration, Point, TimeUnit};
use sy_core::{Base, DateTerm, Ev, Prop, Situation, Verdict, greater, lesser, opposite};
use sy_time::add;

/// True where the first test says so, else False where the second does, else Open.
fn verdict_by(passes: bool, fails: bool) -> Verdict
    ensures { result ≡ verdict_by passes fails }
{
    if passes {
        Verdict::True
    } else if fails {
        Verdict::False
    } else {
        Verdict::Open
    }
}

/// The event happened at some point up to now.
fn seen_ever(present: &Present, ev: &Ev) -> bool
    ensures { result ≡ seen_ever ev.now (moments_to_now present.now) }
{
    for moment in present.before {
        if moment.sees(ev) {
            return true;
        }
    }
    present.moment.sees(ev)
}

/// The event happened at some point before the date.
fn seen_before(present: &Present, ev: &Ev, to: Point) -> bool
    ensures { result ≡ seen_before ev.now to (moments_to_now present.now) }
{
    for moment in present.before {
        if moment.sees_before(ev, to) {
            return true;
        }
    }
    present.moment.sees_before(ev, to)
}

/// The event happened at some point after the date.
fn seen_after(present: &Present, ev: &Ev, from: Point) -> bool
    ensures { result ≡ seen_after ev.now from (moments_to_now present.now) }
{
    for moment in present.before {
        if moment.sees_after(ev, from) {
            return true;
        }
    }
    present.moment.sees_after(ev, from)
}

/// The event happened at some point from the one date on and before the other.
fn seen_between(present: &Present, ev: &Ev, from: Point, to: Point) -> bool
    ensures { result ≡ seen_between ev.now from to (moments_to_now present.now) }
{
    for moment in present.before {
        if moment.sees_between(ev, from, to) {
            return true;
        }
    }
    present.moment.sees_between(ev, from, to)
}

/// The situation fails at some point from the one date on and before the other.
fn fails_within(present: &Present, situation: Situation, from: Point, to: Point) -> bool
    ensures { result ≡ fails_within situation from to (moments_to_now present.now) }
{
    for moment in present.before {
        if moment.fails_between(situation, from, to) {
            return true;
        }
    }
    present.moment.fails_between(situation, from, to)
}

/// The first point up to now at which the event happened.
fn first_point(present: &Present, ev: &Ev) -> Option<Point>
    ensures { result ≡ first_point ev.now (moments_to_now present.now) }
{
    for moment in present.before {
        if moment.sees(ev) {
            return Some(moment.point);
        }
    }
    if present.moment.sees(ev) {
        Some(present.moment.point)
    } else {
        None
    }
}

/// The date that a date term begins with, where it has one.
fn base_value(present: &Present, base: &Base) -> Option<Point>
    ensures { result ≡ base_value base.now (moments_to_now present.now) }
{
    match base {
        Base::Fixed(point) => Some(*point),
        Base::First(ev) => first_point(present, ev),
    }
}

/// The point with all the durations added, from left to right.
fn add_all(unit: TimeUnit, point: Point, durations: &[Duration]) -> Point
    requires dated { IsDated unit point }
    requires few { length durations.now ≤ 8 }
    requires sound { IsTrue (list_all (is_duration_of unit) durations.now) }
    ensures { result ≡ all_added unit point durations.now }
{
    let mut sum = point;
    for duration in durations {
        sum = add(unit, sum, *duration);
    }
    sum
}

/// The value of a date term, where it has one.
fn date_value(present: &Present, term: &DateTerm) -> Option<Point>
    requires { IsTrue (is_sound_date present.now.deed.now term.now) }
    ensures { result ≡ date_value present.now.deed.now.unit term.now (moments_to_now present.now) }
{
    let point = base_value(present, &term.base)?;
    Some(add_all(present.deed.unit, point, term.plus.items()))
}

/// The verdict of an event's happening from the one date on and before the other.
fn within(present: &Present, ev: &Ev, from: &DateTerm, to: &DateTerm) -> Verdict
    requires from { IsTrue (is_sound_date present.now.deed.now from.now) }
    requires to { IsTrue (is_sound_date present.now.deed.now to.now) }
    ensures { result ≡ step_now present.now (PropOpen.Within ev.now from.now to.now) }
{
    match (date_value(present, from), date_value(present, to)) {
        (Some(from), Some(to)) => verdict_by(
            seen_between(present, ev, from, to),
            to <= present.moment.point,
        ),
        _ => Verdict::Open,
    }
}

/// The verdict of a situation's lasting from the one date on up to the other.
fn occurs(present: &Present, situation: Situation, from: &DateTerm, to: &DateTerm) -> Verdict
    requires from { IsTrue (is_sound_date present.now.deed.now from.now) }
    requires to { IsTrue (is_sound_date present.now.deed.now to.now) }
    ensures { result ≡ step_now present.now (PropOpen.Occurs situation from.now to.now) }
{
    match (date_value(present, from), date_value(present, to)) {
        (Some(from), Some(to)) => {
            let fails = fails_within(present, situation, from, to);
            verdict_by(to <= present.moment.point && !fails, fails)
        }
        _ => Verdict::Open,
    }
}

/// The verdict of a proposition now.
pub(crate) fn verdict(present: &Present, prop: &Prop) -> Verdict
    requires { IsTrue (is_sound_prop present.now.deed.now prop.now) }
    ensures { result ≡ verdict_now present.now prop.now }
{
    let now = present.moment;
    match prop {
        Prop::Const(truth) => verdict_by(*truth, !*truth),
        Prop::Not(part) => opposite(verdict(present, part.get())),
        Prop::All(parts) => {
            let mut least = Verdict::True;
            for part in parts.as_slice() {
                least = lesser(least, verdict(present, part));
            }
            least
        }
        Prop::Any(parts) => {
            let mut greatest = Verdict::False;
            for part in parts.as_slice() {
                greatest = greater(greatest, verdict(present, part));
            }
            greatest
        }
        Prop::Happens(ev) => verdict_by(seen_ever(present, ev), false),
        Prop::Before(ev, to) => match date_value(present, to) {
            None => Verdict::Open,
            Some(to) => verdict_by(seen_before(present, ev, to), to <= now.point),
        },
        Prop::After(ev, from) => match date_value(present, from) {
            None => Verdict::Open,
            Some(from) => verdict_by(seen_after(present, ev, from), false),
        },
        Prop::Within(ev, from, to) => within(present, ev, from, to),
        Prop::Occurs(situation, from, to) => occurs(present, *situation, from, to),
        Prop::Holds(situation) => {
            let holds = now.holds(*situation);
            verdict_by(holds, !holds)
        }
    }
}
