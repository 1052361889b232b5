ghost use Rattle.std.specs.Prelude.{◌≡◌, ◌&&◌, ◌==◌, IsTrue};
ghost use Rattle.sy_base.specs.Points.{IsDated};
ghost use Rattle.sy_core.specs.Soundness.{is_sound_date};
ghost use Rattle.sy_passes.specs.Passes.{kind_number};
ghost use Rattle.sy_quiet.specs.Histories.{is_inner};
ghost use Rattle.sy_atoms.specs.Machine.Told.{hits_of, begins, news_of_date, news_of_situation, update_of_happens, update_of_before, update_of_after, update_of_within, update_of_occurs, update_of_holds};

use crate::look::is_said;
use crate::sums::add_all;
use crate::update::Update;
use sy_base::Point;
use sy_core::{
    Base, DateTerm, Deed, Ev, Kind, Situation, StateOf, Target, What, is_same_target, matches,
};

/// Something that is told at a point.
#[derive(Clone, Copy)]
pub enum News<'a> {
    /// This stands among what happens.
    Seen(&'a What),
    /// This internal event happens.
    Fired(Kind, Target),
    /// The target is in the state from the next point on.
    Set(Target, StateOf),
}

/// The event is this internal one.
fn is_inner(kind: Kind, target: Target, ev: &Ev) -> bool
    ensures { result ≡ is_inner kind target ev.now }
{
    match ev {
        Ev::Outer(_, _) => false,
        Ev::Inner(other, of) => kind as u8 == *other as u8 && is_same_target(target, *of),
    }
}

impl<'a> News<'a> {
    /// The event happens.
    fn hits(&self, ev: &Ev) -> bool
        ensures { result ≡ hits_of self.now ev.now }
    {
        match self {
            News::Seen(what) => matches(ev, what),
            News::Fired(kind, target) => is_inner(*kind, *target, ev),
            News::Set(_, _) => false,
        }
    }

    /// What a date term begins with happens.
    fn begins(&self, base: &Base) -> bool
        ensures { result ≡ begins (hits_of self.now) base.now }
    {
        match base {
            Base::Fixed(_) => false,
            Base::First(ev) => self.hits(ev),
        }
    }

    /// The value that the date term has if it has none yet.
    fn date(&self, deed: &Deed, point: Point, term: &DateTerm) -> Option<Point>
        requires dated { IsDated deed.now.unit point }
        requires sound { IsTrue (is_sound_date deed.now term.now) }
        ensures { result ≡ news_of_date deed.now.unit point (hits_of self.now) term.now }
    {
        if self.begins(&term.base) {
            Some(add_all(deed.unit, point, term.plus.items()))
        } else {
            None
        }
    }

    /// Whether the situation holds from the next point on, if that is told.
    fn situation(&self, situation: Situation) -> Option<bool>
        ensures { result ≡ news_of_situation self.now situation }
    {
        match self {
            News::Set(target, state) => {
                if is_same_target(*target, situation.target) {
                    Some(is_said(situation, *state))
                } else {
                    None
                }
            }
            _ => None,
        }
    }

    /// What is told of an event's happening.
    pub fn of_happens(&self, ev: &Ev) -> Update
        ensures { result ≡ update_of_happens self.now ev.now }
    {
        Update {
            happens: self.hits(ev),
            from: None,
            to: None,
            holds: None,
        }
    }

    /// What is told of an event's happening before a date. The present point is a date.
    pub fn of_before(&self, deed: &Deed, point: Point, ev: &Ev, to: &DateTerm) -> Update
        requires dated { IsDated deed.now.unit point }
        requires sound { IsTrue (is_sound_date deed.now to.now) }
        ensures { result ≡ update_of_before deed.now.unit point self.now ev.now to.now }
    {
        Update {
            happens: self.hits(ev),
            from: None,
            to: self.date(deed, point, to),
            holds: None,
        }
    }

    /// What is told of an event's happening after a date. The present point is a date.
    pub fn of_after(&self, deed: &Deed, point: Point, ev: &Ev, from: &DateTerm) -> Update
        requires dated { IsDated deed.now.unit point }
        requires sound { IsTrue (is_sound_date deed.now from.now) }
        ensures { result ≡ update_of_after deed.now.unit point self.now ev.now from.now }
    {
        Update {
            happens: self.hits(ev),
            from: self.date(deed, point, from),
            to: None,
            holds: None,
        }
    }

    /// What is told of an event's happening from the one date on and before the other. The present
    /// point is a date.
    pub fn of_within(
        &self,
        deed: &Deed,
        point: Point,
        ev: &Ev,
        from: &DateTerm,
        to: &DateTerm,
    ) -> Update
        requires dated { IsDated deed.now.unit point }
        requires from { IsTrue (is_sound_date deed.now from.now) }
        requires to { IsTrue (is_sound_date deed.now to.now) }
        ensures { result ≡ update_of_within deed.now.unit point self.now ev.now from.now to.now }
    {
        Update {
            happens: self.hits(ev),
            from: self.date(deed, point, from),
            to: self.date(deed, point, to),
            holds: None,
        }
    }

    /// What is told of a situation's lasting from the one date on up to the other. The present point
    /// is a date.
    pub fn of_occurs(
        &self,
        deed: &Deed,
        point: Point,
        situation: Situation,
        from: &DateTerm,
        to: &DateTerm,
    ) -> Update
        requires dated { IsDated deed.now.unit point }
        requires from { IsTrue (is_sound_date deed.now from.now) }
        requires to { IsTrue (is_sound_date deed.now to.now) }
        ensures { result ≡ update_of_occurs deed.now.unit point self.now situation from.now to.now }
    {
        Update {
            happens: false,
            from: self.date(deed, point, from),
            to: self.date(deed, point, to),
            holds: self.situation(situation),
        }
    }

    /// What is told of a situation's holding now.
    pub fn of_holds(&self, situation: Situation) -> Update
        ensures { result ≡ update_of_holds self.now situation }
    {
        Update {
            happens: false,
            from: None,
            to: None,
            holds: self.situation(situation),
        }
    }
}
