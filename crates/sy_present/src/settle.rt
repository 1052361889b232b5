ghost use Rattle.std.specs.Prelude.{◌≡◌, ◌<◌, ◌^◌, ℕ, Some, map, length, slice_get};
ghost use Rattle.sy_core.specs.declared.kind.Target.TheVariants as target;
ghost use Rattle.sy_core.specs.Soundness.{HasSoundParts};
ghost use Rattle.sy_quiet.specs.Histories.{History, setting};
ghost use Rattle.sy_prop.specs.Standing.{present_point, IsMadeFor as LatchesMade, StandsFor as LatchesStand};
ghost use Rattle.sy_present.specs.declared.place.Place.{Place as APlace};
ghost use Rattle.sy_present.specs.Standing.{IsMadeFor, last_point};
ghost use Rattle.sy_present.specs.Machine.Told.{IsPresent, IsSettled};
ghost use Rattle.sy_present.specs.Machine.Settled.{first_with, settled, setting_from};

use crate::place::Place;
use crate::present::Present;
use sy_base::Point;
use sy_core::{Deed, StateOf, Target, is_same_state};
use sy_machines::{next_contract, next_state};
use sy_prop::Latches;

/// The first point, where there was one, or else this one, if it happens here.
fn first_with(first: Option<Point>, here: bool, point: Point) -> Option<Point>
    ensures { result ≡ first_with first here point }
{
    first.or(here.then_some(point))
}

/// The position has its state after the present point, which is this one, and its first points.
fn settle_place(place: &mut Place, point: Point)
    ensures { place.new ≡ settled point place.old }
{
    place.state = next_state(place.form, place.state, &place.fired);
    place.violated = first_with(place.violated, place.fired.violated, point);
    place.exerted = first_with(place.exerted, place.fired.exerted, point);
}

/// The target is in the state after the present point; at its start it was in the other. Where the
/// state stays the latches aren't told.
fn set_state(latches: &mut Latches, deed: &Deed, target: Target, was: StateOf, state: StateOf)
    requires sound { HasSoundParts deed.now }
    requires made { LatchesMade latches.old deed.now }
    ensures made { LatchesMade latches.new deed.now }
    ensures point { present_point latches.new ≡ present_point latches.old }
    ensures stands { (h : History) → h.next target ≡ was → LatchesStand latches.old deed.now h
        → LatchesStand latches.new deed.now (setting target state h) }
{
    if !is_same_state(was, state) {
        latches.set_state(deed, target, state);
    }
}

/// The states of the positions after the present point, which is this one, are set.
fn settle_places(places: &mut [Place], latches: &mut Latches, deed: &Deed, point: Point)
    requires few { length places.old < 2 ^ 32 }
    requires sound { HasSoundParts deed.now }
    requires made { LatchesMade latches.old deed.now }
    ensures made { LatchesMade latches.new deed.now }
    ensures point { present_point latches.new ≡ present_point latches.old }
    ensures places { places.new ≡ map (settled point) places.old }
    ensures stands { (h : History)
        → ((i : ℕ) (place : APlace) → slice_get places.old i ≡ Some place
        → h.next (target.Position i) ≡ place.state)
        → LatchesStand latches.old deed.now h
        → LatchesStand latches.new deed.now (setting_from 0 places.old h) }
{
    let mut number = 0;
    for place in places.iter_mut() {
        let was = place.state;
        settle_place(place, point);
        set_state(latches, deed, Target::Position(number), was, place.state);
        number += 1;
    }
}

impl Present {
    /// The states after the present point, which is this one, are set.
    pub(crate) fn settle(&mut self, deed: &Deed, point: Point)
        requires sound { HasSoundParts deed.now }
        requires made { IsMadeFor self.old deed.now }
        ensures made { IsMadeFor self.new deed.now }
        ensures point { last_point self.new ≡ last_point self.old }
        ensures settled { (h : History) → IsPresent self.old deed.now h → point ≡ h.now.point
            → IsSettled self.new deed.now h }
    {
        let state = next_contract(self.contract, &self.contract_fired);
        set_state(
            &mut self.latches,
            deed,
            Target::Contract,
            self.contract,
            state,
        );
        self.contract = state;
        settle_places(self.places.as_mut_slice(), &mut self.latches, deed, point);
    }
}
