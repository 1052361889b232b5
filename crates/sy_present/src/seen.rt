ghost use Rattle.std.specs.Prelude.{◌≡◌, ◌≤ℤ◌, ◌+ℤ◌, ℕ, pos, List, map};
ghost use Rattle.sy_base.specs.Points.{IsDated};
ghost use Rattle.sy_core.specs.declared.happening.Happening.{Happening as Happened};
ghost use Rattle.sy_core.specs.Soundness.{HasSoundParts};
ghost use Rattle.sy_quiet.specs.Histories.{History, seeing, history_at};
ghost use Rattle.sy_quiet.specs.Evaluation.{seeing_all};
ghost use Rattle.sy_present.specs.Standing.{IsMadeFor, StandsFor, last_point};
ghost use Rattle.sy_present.specs.Machine.Told.{IsPresent};
ghost use Rattle.sy_present.specs.Machine.Begun.{begun};
ghost use Rattle.sy_present.specs.Machine.Asked.{asking};

use crate::done::Done;
use crate::place::Place;
use crate::present::Present;
use sy_base::Point;
use sy_core::{Deed, Happening, What};
use sy_machines::Fired;

/// Nothing was told yet of what happens to the positions.
fn clear(places: &mut [Place])
    ensures { places.new ≡ map begun places.old }
{
    for place in places.iter_mut() {
        place.asked = false;
        place.done = Done::NONE;
        place.fired = Fired::NONE;
    }
}

/// The narrative exerts the position with this number, if there is one.
fn ask(places: &mut [Place], number: u32)
    ensures { places.new ≡ asking number places.old }
{
    let at = number as usize;
    if at < places.len() {
        places[at].asked = true;
    }
}

impl Present {
    /// A point begins, at which nothing was told yet.
    pub(crate) fn begin(&mut self, deed: &Deed, point: Point)
        requires made { IsMadeFor self.old deed.now }
        requires later { last_point self.old ≤ℤ point }
        requires dated { IsDated deed.now.unit point }
        ensures made { IsMadeFor self.new deed.now }
        ensures point { last_point self.new ≡ point }
        ensures present { (narrative : List Happened) (n : ℕ) → StandsFor self.old deed.now narrative n
            → point ≡ deed.now.start +ℤ pos n
            → IsPresent self.new deed.now (history_at deed.now narrative n) }
    {
        self.latches.set_point(deed, point);
        self.contract_done = Done::NONE;
        self.contract_fired = Fired::NONE;
        clear(self.places.as_mut_slice());
        self.eventful = false;
    }

    /// The narrative has this at the present point.
    fn see(&mut self, deed: &Deed, what: &What)
        requires sound { HasSoundParts deed.now }
        requires made { IsMadeFor self.old deed.now }
        ensures made { IsMadeFor self.new deed.now }
        ensures point { last_point self.new ≡ last_point self.old }
        ensures present { (h : History) → IsPresent self.old deed.now h
            → IsPresent self.new deed.now (seeing what.now h) }
    {
        self.latches.see(deed, what);
        if let What::Exert(power) = what {
            ask(self.places.as_mut_slice(), *power);
        }
    }

    /// The narrative has these happenings at the present point.
    pub(crate) fn see_all(&mut self, deed: &Deed, at: &[Happening])
        requires sound { HasSoundParts deed.now }
        requires made { IsMadeFor self.old deed.now }
        ensures made { IsMadeFor self.new deed.now }
        ensures point { last_point self.new ≡ last_point self.old }
        ensures present { (h : History) → IsPresent self.old deed.now h
            → IsPresent self.new deed.now (seeing_all (map (λ happening. happening.what) at.now) h) }
    {
        for happening in at {
            self.see(deed, &happening.what);
        }
    }
}
