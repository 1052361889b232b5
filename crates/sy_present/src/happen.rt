ghost use Rattle.std.specs.Prelude.{◌≡◌, ◌||◌, Some, false, map, slice_get};
ghost use Rattle.sy_words.specs.declared.verb.Verb.{Verb as VerbOf};
ghost use Rattle.sy_core.specs.declared.kind.Target.TheVariants as target;
ghost use Rattle.sy_core.specs.declared.position.Position.{Position};
ghost use Rattle.sy_core.specs.declared.position.Goal.TheVariants as goal;
ghost use Rattle.sy_core.specs.Conditions.{is_act};
ghost use Rattle.sy_core.specs.Soundness.{HasSoundParts};
ghost use Rattle.sy_quiet.specs.Histories.{History, firing};
ghost use Rattle.sy_present.specs.declared.place.Place.{Place as PlaceOf};
ghost use Rattle.sy_present.specs.Standing.{IsMadeFor, last_point};
ghost use Rattle.sy_present.specs.Machine.Told.{IsPresent, has_done};
ghost use Rattle.sy_present.specs.Machine.Happened.{is_event_of, does_to, HaveMore};

use crate::done::Done;
use crate::place::Place;
use crate::present::Present;
use sy_core::{Act, Deed, Goal, Target};
use sy_words::{Kind, Verb};

/// The internal event happens to the place with this number.
fn fire_at(places: &mut Vec<Place>, number: u32, kind: Kind)
    ensures { HaveMore (is_event_of kind (target.Position number)) (λ _ _. false) places.old.items places.new.items }
{
    if let Some(place) = places.get_mut(number as usize) {
        place.fired.set(kind);
    }
}

/// A power does this to the place with this number.
fn add_at(places: &mut Vec<Place>, number: u32, verb: Verb)
    ensures { HaveMore (λ _ _. false)
        (λ x v. is_act v x (goal.Act (record { verb = verb; target = target.Position number }))) places.old.items places.new.items }
{
    if let Some(place) = places.get_mut(number as usize) {
        place.done.add(verb);
    }
}

/// The power's act is done to its target.
fn do_act(places: &mut Vec<Place>, contract: &mut Done, act: Act)
    ensures places { HaveMore (λ _ _. false) (λ x v. is_act v x (goal.Act act)) places.old.items places.new.items }
    ensures contract { (verb : VerbOf) → has_done contract.new verb
        ≡ (has_done contract.old verb || is_act verb target.Contract (goal.Act act)) }
{
    match act.target {
        Target::Position(number) => add_at(places, number, act.verb),
        Target::Contract => contract.add(act.verb),
    }
}

/// What the internal event of a position with this goal does: where the position is a power that is
/// exerted, its act is done.
fn do_event(places: &mut Vec<Place>, contract: &mut Done, kind: Kind, goal: &Goal)
    ensures places { HaveMore (λ _ _. false) (does_to kind goal.now) places.old.items places.new.items }
    ensures contract { (verb : VerbOf) → has_done contract.new verb
        ≡ (has_done contract.old verb || does_to kind goal.now target.Contract verb) }
{
    if let (Kind::Exerted, Goal::Act(act)) = (kind, goal) {
        do_act(places, contract, *act);
    }
}

/// The internal event happens to the place with this number, and does what it does.
fn happen_at(places: &mut Vec<Place>, contract: &mut Done, deed: &Deed, kind: Kind, number: u32)
    ensures forms { map (λ (place : PlaceOf). place.form) places.new.items
        ≡ map (λ (place : PlaceOf). place.form) places.old.items }
    ensures places { (p : Position) → slice_get deed.now.positions number ≡ Some p
        → HaveMore (is_event_of kind (target.Position number)) (does_to kind p.goal) places.old.items places.new.items }
    ensures contract { (p : Position) (verb : VerbOf) → slice_get deed.now.positions number ≡ Some p
        → has_done contract.new verb ≡ (has_done contract.old verb || does_to kind p.goal target.Contract verb) }
{
    fire_at(places, number, kind);
    if let Some(position) = deed.positions.items().get(number as usize) {
        do_event(places, contract, kind, &position.goal);
    }
}

impl Present {
    /// The internal event happens to the position with this number.
    pub(crate) fn happen(&mut self, deed: &Deed, kind: Kind, number: u32)
        requires sound { HasSoundParts deed.now }
        requires made { IsMadeFor self.old deed.now }
        ensures made { IsMadeFor self.new deed.now }
        ensures point { last_point self.new ≡ last_point self.old }
        ensures present { (h : History) (p : Position) → slice_get deed.now.positions number ≡ Some p
            → IsPresent self.old deed.now h
            → IsPresent self.new deed.now (firing kind (target.Position number) h) }
    {
        happen_at(
            &mut self.places,
            &mut self.contract_done,
            deed,
            kind,
            number,
        );
        self.eventful = true;
        self.latches.fire(deed, kind, Target::Position(number));
    }

    /// The internal event happens to the contract.
    pub(crate) fn happen_to_contract(&mut self, deed: &Deed, kind: Kind)
        requires sound { HasSoundParts deed.now }
        requires made { IsMadeFor self.old deed.now }
        ensures made { IsMadeFor self.new deed.now }
        ensures point { last_point self.new ≡ last_point self.old }
        ensures present { (h : History) → IsPresent self.old deed.now h
            → IsPresent self.new deed.now (firing kind target.Contract h) }
    {
        self.contract_fired.set(kind);
        self.eventful = true;
        self.latches.fire(deed, kind, Target::Contract);
    }
}
