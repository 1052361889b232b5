ghost use Rattle.std.specs.Prelude.{◌≡◌, IsTrue};
ghost use Rattle.sy_core.specs.Soundness.{is_sound_date};
ghost use Rattle.sy_atoms.specs.Histories.{first_history};
ghost use Rattle.sy_atoms.specs.Machine.Kept.{due_of};
ghost use Rattle.sy_atoms.specs.Machine.Windows.{from_on, before_date, after_date};

use crate::sums::add_all;
use sy_base::Point;
use sy_core::{Base, DateTerm, Deed};

/// The value of a date term, once it has one. A date without a value yet comes later than every
/// point so far.
#[derive(Clone, Copy, Debug)]
pub struct Due {
    pub value: Option<Point>,
}

/// The value of a date term at start.
pub fn first_due(deed: &Deed, term: &DateTerm) -> Due
    requires sound { IsTrue (is_sound_date deed.now term.now) }
    ensures { result ≡ due_of deed.now.unit term.now (first_history deed.now.start) }
{
    let value = match &term.base {
        Base::Fixed(point) => Some(add_all(deed.unit, *point, term.plus.items())),
        Base::First(_) => None,
    };
    Due { value }
}

impl Due {
    ghost use Rattle.sy_atoms.specs.Machine.Kept.{learned_due};

    /// Takes this value, unless it has one already.
    pub fn learn(&mut self, value: Option<Point>)
        ensures { self.new ≡ learned_due value self.old }
    {
        if self.value.is_none() {
            self.value = value;
        }
    }

    /// Whether the point isn't before the date.
    pub fn is_from(&self, point: Point) -> bool
        ensures { result ≡ from_on self.now.value point }
    {
        match self.value {
            None => false,
            Some(date) => date <= point,
        }
    }

    /// Whether the point is before the date.
    pub fn is_before(&self, point: Point) -> bool
        ensures { result ≡ before_date self.now.value point }
    {
        match self.value {
            None => true,
            Some(date) => point < date,
        }
    }

    /// Whether the point is after the date.
    pub fn is_after(&self, point: Point) -> bool
        ensures { result ≡ after_date self.now.value point }
    {
        match self.value {
            None => false,
            Some(date) => date < point,
        }
    }
}
