ghost use Rattle.std.specs.Prelude.{◌≡◌, IsTrue};
ghost use Rattle.sy_base.specs.Points.{IsDated};
ghost use Rattle.sy_core.specs.Soundness.{is_sound_date};
ghost use Rattle.sy_atoms.specs.Machine.Told.{update_of_before, update_of_after, update_of_within, update_of_occurs};

use sy_atoms::{News, Update};
use sy_base::Point;
use sy_core::{DateTerm, Deed, Ev, Situation};

/// News that are told at the present point, which is a date, under a deed.
#[derive(Clone, Copy)]
pub(crate) struct Telling<'a> {
    pub deed: &'a Deed,
    pub point: Point,
    pub news: News<'a>,
    ghost dated: { IsDated deed.now.unit point },
}

impl<'a> Telling<'a> {
    /// What is told of an event's happening before a date.
    pub fn of_before(&self, ev: &Ev, to: &DateTerm) -> Update
        requires { IsTrue (is_sound_date self.now.deed.now to.now) }
        ensures { result
            ≡ update_of_before self.now.deed.now.unit self.now.point self.now.news ev.now to.now }
    {
        self.news.of_before(self.deed, self.point, ev, to)
    }

    /// What is told of an event's happening after a date.
    pub fn of_after(&self, ev: &Ev, from: &DateTerm) -> Update
        requires { IsTrue (is_sound_date self.now.deed.now from.now) }
        ensures { result
            ≡ update_of_after self.now.deed.now.unit self.now.point self.now.news ev.now from.now }
    {
        self.news.of_after(self.deed, self.point, ev, from)
    }

    /// What is told of an event's happening from the one date on and before the other.
    pub fn of_within(&self, ev: &Ev, from: &DateTerm, to: &DateTerm) -> Update
        requires from { IsTrue (is_sound_date self.now.deed.now from.now) }
        requires to { IsTrue (is_sound_date self.now.deed.now to.now) }
        ensures { result
            ≡ update_of_within self.now.deed.now.unit self.now.point self.now.news ev.now from.now to.now }
    {
        self.news.of_within(self.deed, self.point, ev, from, to)
    }

    /// What is told of a situation's lasting from the one date on up to the other.
    pub fn of_occurs(&self, situation: Situation, from: &DateTerm, to: &DateTerm) -> Update
        requires from { IsTrue (is_sound_date self.now.deed.now from.now) }
        requires to { IsTrue (is_sound_date self.now.deed.now to.now) }
        ensures { result
            ≡ update_of_occurs self.now.deed.now.unit self.now.point self.now.news situation from.now to.now }
    {
        self.news
            .of_occurs(self.deed, self.point, situation, from, to)
    }
}
