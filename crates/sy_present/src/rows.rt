ghost use Rattle.std.specs.Prelude.{◌≡◌, Some, slice_get};
ghost use Rattle.sy_core.specs.declared.kind.Target.TheVariants as target;
ghost use Rattle.sy_core.specs.declared.deed.Deed.{Deed};
ghost use Rattle.sy_core.specs.declared.proposition.Prop.{Prop};
ghost use Rattle.sy_core.specs.Conditions.{fires, duty_verdict};
ghost use Rattle.sy_core.specs.Propositions.{verdict_at};
ghost use Rattle.sy_quiet.specs.Histories.{History};
ghost use Rattle.sy_prop.specs.Standing.{StandsFor as LatchesStand, prop_at};
ghost use Rattle.sy_present.specs.Standing.{IsMadeFor};
ghost use Rattle.sy_present.specs.Machine.Told.{IsPresent};
ghost use Rattle.sy_present.specs.Machine.Granted.{wanted, granted, grants};

use crate::place::Place;
use crate::present::Present;
use sy_core::{Deed, Goal, Position, Verdict, acts_on_contract, has_holds, is_false, is_true};
use sy_machines::{Inputs, fire};
use sy_prop::Root;
use sy_words::Kind;

/// The verdict that the row of the kind asks for, if it asks for one.
fn wanted(kind: Kind) -> Verdict
    ensures { result ≡ wanted kind }
{
    match kind {
        Kind::Violated | Kind::Expired => Verdict::False,
        Kind::Exerted
        | Kind::Triggered
        | Kind::Activated
        | Kind::Resumed
        | Kind::Suspended
        | Kind::Fulfilled
        | Kind::Discharged
        | Kind::Terminated
        | Kind::Completed => Verdict::True,
    }
}

impl Present {
    /// The verdict of the proposition at a place of the deed.
    fn verdict(&self, place: Root) -> Verdict
        ensures { (deed : Deed) (h : History) (prop : Prop)
            → LatchesStand self.now.latches deed h
            → prop_at deed place ≡ Some prop
            → result ≡ verdict_at deed.unit h.now h.before prop }
    {
        self.latches.verdict(self.latches.root(place))
    }

    /// The verdict of what the position with this number demands; a power demands nothing, so that it
    /// stays Open.
    fn duty_verdict(&self, position: &Position, number: u32) -> Verdict
        ensures { (deed : Deed) (h : History)
            → LatchesStand self.now.latches deed h
            → slice_get deed.positions number ≡ Some position.now
            → result ≡ duty_verdict deed.unit h.now h.before position.now.goal }
    {
        match &position.goal {
            Goal::Duty(_) => self.verdict(Root::Consequent(number)),
            Goal::Act(_) => Verdict::Open,
        }
    }

    /// What is given of a position whose propositions have the verdicts that the row of the kind asks
    /// for.
    fn granted(&self, place: &Place, goal: &Goal, kind: Kind) -> Inputs
        ensures { result
            ≡ granted self.now.contract self.now.contract_done.terminates place.now goal.now kind }
    {
        let verdict = wanted(kind);
        Inputs {
            trigger: verdict,
            antecedent: verdict,
            final_antecedent: true,
            consequent: verdict,
            asked: place.asked,
            contract: self.contract,
            on_contract: acts_on_contract(goal),
            triggers: place.done.triggers,
            resumes: place.done.resumes,
            suspends: place.done.suspends,
            discharges: place.done.discharges,
            terminates: place.done.terminates,
            ends: self.contract_done.terminates,
            fired: place.fired,
        }
    }

    /// Whether the propositions of the position with this number have the verdicts that the row of the
    /// kind asks for, or a power triggers it.
    fn grants(&self, place: &Place, position: &Position, kind: Kind, number: u32) -> bool
        ensures { (deed : Deed) (h : History)
            → LatchesStand self.now.latches deed h
            → slice_get deed.positions number ≡ Some position.now
            → result ≡ grants deed.unit h.now h.before position.now place.now.done.triggers kind }
    {
        match kind {
            Kind::Triggered => {
                place.done.triggers || is_true(self.verdict(Root::Trigger(number)))
            }
            Kind::Activated => is_true(self.verdict(Root::Antecedent(number))),
            Kind::Fulfilled => is_true(self.duty_verdict(position, number)),
            Kind::Violated => is_false(self.duty_verdict(position, number)),
            Kind::Expired => {
                is_false(self.verdict(Root::Antecedent(number))) && !has_holds(&position.antecedent)
            }
            Kind::Exerted
            | Kind::Resumed
            | Kind::Suspended
            | Kind::Discharged
            | Kind::Terminated
            | Kind::Completed => true,
        }
    }

    /// Whether the condition of an internal event of the position with this number is true now. Verdicts
    /// are worked out only where all else that the condition asks for is there.
    pub(crate) fn fires_at(&self, deed: &Deed, kind: Kind, number: u32) -> bool
        requires { IsMadeFor self.now deed.now }
        ensures { (h : History) → IsPresent self.now deed.now h
            → result ≡ fires deed.now h.now h.before kind (target.Position number) }
    {
        let Some(position) = deed.positions.items().get(number as usize) else {
            return false;
        };
        let Some(place) = self.places.get(number as usize) else {
            return false;
        };
        let inputs = self.granted(place, &position.goal, kind);
        fire(kind, place.form, place.state, &inputs) && self.grants(place, position, kind, number)
    }
}
