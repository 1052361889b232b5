ghost use Rattle.std.specs.Prelude.{◌≡◌, ℕ, suc, Some, List, length, slice_get};
ghost use Rattle.sy_words.specs.declared.kind.Kind.TheVariants.{Exerted, Violated};
ghost use Rattle.sy_core.specs.declared.deed.Deed.{Deed};
ghost use Rattle.sy_core.specs.declared.date_term.DateTerm.{DateTerm};
ghost use Rattle.sy_core.specs.declared.event.Ev.TheVariants.{Inner};
ghost use Rattle.sy_core.specs.declared.happening.Happening.{Happening};
ghost use Rattle.sy_core.specs.declared.position.Position.{Position};
ghost use Rattle.sy_core.specs.declared.proposition.Prop.{Prop};
ghost use Rattle.sy_core.specs.Moments.{date_value, first_point};
ghost use Rattle.sy_core.specs.Chronicle.{chronicle, state_at, moment_at};
ghost use Rattle.sy_core.specs.Propositions.{verdict_at};
ghost use Rattle.sy_core.specs.Wakes.{dates_of_deed};
ghost use Rattle.sy_present.specs.Standing.{IsMadeFor, StandsFor, has_fired};

use crate::present::Present;
use sy_base::Point;
use sy_core::{StateOf, Target, Verdict};
use sy_prop::Root;
use sy_words::Kind;

impl Present {
    /// The target's state.
    pub fn state(&self, target: Target) -> StateOf
        ensures { (deed : Deed) (narrative : List Happening) (n : ℕ)
            → IsMadeFor self.now deed → StandsFor self.now deed narrative n
            → result ≡ state_at deed narrative n target }
    {
        match target {
            Target::Contract => self.contract,
            Target::Position(position) => match self.places.get(position as usize) {
                None => StateOf::Null,
                Some(place) => place.state,
            },
        }
    }

    /// The first point at which the position with this number was violated.
    pub fn violated_at(&self, position: u32) -> Option<Point>
        ensures { (deed : Deed) (narrative : List Happening) (n : ℕ) (p : Position)
            → IsMadeFor self.now deed → StandsFor self.now deed narrative n
            → slice_get deed.positions position ≡ Some p
            → result ≡ first_point (Inner Violated (Target.Position position)) (chronicle deed narrative n) }
    {
        self.places.get(position as usize)?.violated
    }

    /// The first point at which the power with this number was exerted.
    pub fn exerted_at(&self, position: u32) -> Option<Point>
        ensures { (deed : Deed) (narrative : List Happening) (n : ℕ) (p : Position)
            → IsMadeFor self.now deed → StandsFor self.now deed narrative n
            → slice_get deed.positions position ≡ Some p
            → result ≡ first_point (Inner Exerted (Target.Position position)) (chronicle deed narrative n) }
    {
        self.places.get(position as usize)?.exerted
    }

    /// Whether the internal event happened at the point that was evaluated last.
    pub fn happened(&self, kind: Kind, target: Target) -> bool
        ensures { result ≡ has_fired self.now kind target }
    {
        match target {
            Target::Contract => self.contract_fired.has(kind),
            Target::Position(position) => match self.places.get(position as usize) {
                None => false,
                Some(place) => place.fired.has(kind),
            },
        }
    }

    /// How many date terms the deed has.
    pub fn terms(&self) -> usize
        ensures { (deed : Deed) (narrative : List Happening) (n : ℕ) → StandsFor self.now deed narrative n
            → result ≡ length (dates_of_deed deed) }
    {
        self.latches.terms()
    }

    /// The value of the date term with this number, by the points that were evaluated.
    pub fn due(&self, term: usize) -> Option<Point>
        ensures { (deed : Deed) (narrative : List Happening) (n : ℕ) (date : DateTerm)
            → StandsFor self.now deed narrative n
            → slice_get (dates_of_deed deed) term ≡ Some date
            → result ≡ date_value deed.unit date (chronicle deed narrative n) }
    {
        self.latches.due(term)
    }

    /// The verdict of the postcondition with this number at the point before the present one.
    pub fn post(&self, number: u32) -> Verdict
        ensures { (deed : Deed) (narrative : List Happening) (n : ℕ) (prop : Prop)
            → StandsFor self.now deed narrative (suc n)
            → slice_get deed.posts number ≡ Some prop
            → result ≡ verdict_at deed.unit (moment_at deed narrative n) (chronicle deed narrative n) prop }
    {
        self.latches.verdict(self.latches.root(Root::Post(number)))
    }
}
