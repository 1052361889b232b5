ghost use Rattle.std.specs.Prelude.{◌≡◌};
ghost use Rattle.sy_core.specs.Propositions;
ghost use Rattle.sy_atoms.specs.Machine.Windows;
ghost use Rattle.sy_atoms.specs.Machine.Atoms;

use crate::due::Due;
use crate::look::Look;
use crate::sight::Sight;
use crate::update::Update;
use sy_base::Point;
use sy_core::Verdict;

/// What is kept of one atom of a proposition. It owns neither its event nor its date terms.
#[derive(Clone, Copy, Debug)]
pub enum Atom {
    Happens(Sight),
    Before(Sight, Due),
    After(Sight, Due),
    Within(Sight, Due, Due),
    /// Beside the situation, whether it failed at a point gone by that counts.
    Occurs(Look, bool, Due, Due),
    Holds(Look),
}

/// True where the first test says so, else False where the second does, else Open.
fn verdict_by(passes: bool, fails: bool) -> Verdict
    ensures { result ≡ Propositions.verdict_by passes fails }
{
    if passes {
        Verdict::True
    } else if fails {
        Verdict::False
    } else {
        Verdict::Open
    }
}

/// The point lies from the one date on and before the other.
fn is_between(from: &Due, to: &Due, point: Point) -> bool
    ensures { result ≡ Windows.between from.now.value to.now.value point }
{
    from.is_from(point) && to.is_before(point)
}

/// Some point from `first` on and before `last` lies from the one date on and before the other.
fn overlaps(from: &Due, to: &Due, first: Point, last: Point) -> bool
    ensures { result ≡ Windows.overlaps from.now.value to.now.value first last }
{
    match (from.value, to.value) {
        (None, _) => false,
        (Some(from), None) => from < last && first < last,
        (Some(from), Some(to)) => from < last && first < last && (from < to && first < to),
    }
}

impl Atom {
    ghost use Rattle.sy_atoms.specs.Machine.Atoms.{told_atom, passed_to, atom_verdict};

    /// Takes what is told of the atom at the present point.
    pub fn tell(&mut self, update: Update)
        ensures { self.new ≡ told_atom update self.old }
    {
        match self {
            Atom::Happens(sight) => sight.note(update.happens),
            Atom::Before(sight, to) => {
                sight.note(update.happens);
                to.learn(update.to);
            }
            Atom::After(sight, from) => {
                sight.note(update.happens);
                from.learn(update.from);
            }
            Atom::Within(sight, from, to) => {
                sight.note(update.happens);
                from.learn(update.from);
                to.learn(update.to);
            }
            Atom::Occurs(look, _, from, to) => {
                look.set(update.holds);
                from.learn(update.from);
                to.learn(update.to);
            }
            Atom::Holds(look) => look.set(update.holds),
        }
    }

    /// The present point goes by, and so do those from `first` on and before `last`, at which nothing
    /// happens and the states are those told for the next point.
    pub fn pass_to(&mut self, point: Point, first: Point, last: Point)
        ensures { self.new ≡ passed_to point first last self.old }
    {
        match self {
            Atom::Happens(sight) => sight.pass(true),
            Atom::Before(sight, to) => sight.pass(to.is_before(point)),
            Atom::After(sight, from) => sight.pass(from.is_after(point)),
            Atom::Within(sight, from, to) => sight.pass(is_between(from, to, point)),
            Atom::Occurs(look, failed, from, to) => {
                if !look.here && is_between(from, to, point) {
                    *failed = true;
                }
                if !look.later && overlaps(from, to, first, last) {
                    *failed = true;
                }
                look.pass();
            }
            Atom::Holds(look) => look.pass(),
        }
    }

    /// The atom's verdict at the present point.
    pub fn verdict(&self, point: Point) -> Verdict
        ensures { result ≡ atom_verdict point self.now }
    {
        match self {
            Atom::Happens(sight) => verdict_by(sight.seen(true), false),
            Atom::Before(sight, to) => match to.value {
                None => Verdict::Open,
                Some(date) => verdict_by(sight.seen(to.is_before(point)), date <= point),
            },
            Atom::After(sight, from) => match from.value {
                None => Verdict::Open,
                Some(_) => verdict_by(sight.seen(from.is_after(point)), false),
            },
            Atom::Within(sight, from, to) => match (from.value, to.value) {
                (Some(_), Some(date)) => {
                    verdict_by(sight.seen(is_between(from, to, point)), date <= point)
                }
                _ => Verdict::Open,
            },
            Atom::Occurs(look, failed, from, to) => match (from.value, to.value) {
                (Some(_), Some(date)) => {
                    let fails = *failed || !look.here && is_between(from, to, point);
                    verdict_by(date <= point && !fails, fails)
                }
                _ => Verdict::Open,
            },
            Atom::Holds(look) => verdict_by(look.here, !look.here),
        }
    }
}
