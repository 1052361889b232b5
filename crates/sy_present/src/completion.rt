ghost use Rattle.std.specs.Prelude.{◌≡◌, ◌&&◌, ◌||◌, not, Some, slice_get};
ghost use Rattle.sy_core.specs.declared.deed.Deed.{Deed};
ghost use Rattle.sy_core.specs.declared.position.Position.{Position};
ghost use Rattle.sy_core.specs.States.{same_state};
ghost use Rattle.sy_core.specs.Conditions.{is_awaited, is_settled, is_remedy, next_state, is_remedied, all_settled, any_begun, is_complete, contract_fires};
ghost use Rattle.sy_machines.specs.Rows.{contract_row_fires};
ghost use Rattle.sy_quiet.specs.Histories.{History};
ghost use Rattle.sy_present.specs.Standing.{IsMadeFor};
ghost use Rattle.sy_present.specs.Machine.Told.{IsPresent};

use crate::present::Present;
use sy_core::{Deed, Position, StateOf, Target, is_awaited, is_remedy, is_same_state, is_settled};
use sy_machines::{ContractInputs, fire_contract, next_state};
use sy_words::Kind;

impl Present {
    /// The state of the position with this number after the point.
    fn next_state_of(&self, number: u32) -> StateOf
        ensures { (deed : Deed) (h : History) (p : Position)
            → IsMadeFor self.now deed → IsPresent self.now deed h
            → slice_get deed.positions number ≡ Some p → result ≡ next_state h.now number p }
    {
        match self.places.get(number as usize) {
            None => StateOf::Null,
            Some(place) => next_state(place.form, place.state, &place.fired),
        }
    }

    /// The position with this number is a remedy of the violated obligation, and is fulfilled after
    /// the point.
    fn remedies(&self, number: u32, position: &Position, violated: Target) -> bool
        ensures { (deed : Deed) (h : History)
            → IsMadeFor self.now deed → IsPresent self.now deed h
            → slice_get deed.positions number ≡ Some position.now
            → result
            ≡ (is_remedy violated position.now
            && same_state (next_state h.now number position.now) StateOf.Fulfillment) }
    {
        is_remedy(violated, position)
            && is_same_state(self.next_state_of(number), StateOf::Fulfillment)
    }

    /// Some remedy of the violated obligation is fulfilled after the point.
    fn is_remedied(&self, deed: &Deed, violated: Target) -> bool
        requires { IsMadeFor self.now deed.now }
        ensures { (h : History) → IsPresent self.now deed.now h
            → result ≡ is_remedied deed.now h.now violated }
    {
        let mut number = 0;
        for position in deed.positions.items() {
            if self.remedies(number, position, violated) {
                return true;
            }
            number += 1;
        }
        false
    }

    /// The contract's completion doesn't wait for the position with this number any more. Remedies
    /// are looked for only where it is violated.
    fn is_done(&self, deed: &Deed, number: u32, position: &Position) -> bool
        requires { IsMadeFor self.now deed.now }
        ensures { (h : History) → IsPresent self.now deed.now h
            → slice_get deed.now.positions number ≡ Some position.now
            → result
            ≡ (not (is_awaited position.now.form)
            || is_settled (next_state h.now number position.now)
            (is_remedied deed.now h.now (Target.Position number))) }
    {
        if !is_awaited(position.form) {
            return true;
        }
        let state = self.next_state_of(number);
        let remedied = is_same_state(state, StateOf::Violation)
            && self.is_remedied(deed, Target::Position(number));
        is_settled(state, remedied)
    }

    /// Each awaited obligation is settled after the point.
    fn all_settled(&self, deed: &Deed) -> bool
        requires { IsMadeFor self.now deed.now }
        ensures { (h : History) → IsPresent self.now deed.now h
            → result ≡ all_settled deed.now h.now }
    {
        let mut number = 0;
        for position in deed.positions.items() {
            if !self.is_done(deed, number, position) {
                return false;
            }
            number += 1;
        }
        true
    }

    /// The position with this number is an awaited obligation that has begun after the point.
    fn has_begun(&self, number: u32, position: &Position) -> bool
        ensures { (deed : Deed) (h : History)
            → IsMadeFor self.now deed → IsPresent self.now deed h
            → slice_get deed.positions number ≡ Some position.now
            → result
            ≡ (is_awaited position.now.form
            && not (same_state (next_state h.now number position.now) StateOf.Null)) }
    {
        is_awaited(position.form) && !is_same_state(self.next_state_of(number), StateOf::Null)
    }

    /// Some awaited obligation has begun after the point.
    fn any_begun(&self, deed: &Deed) -> bool
        requires { IsMadeFor self.now deed.now }
        ensures { (h : History) → IsPresent self.now deed.now h
            → result ≡ any_begun deed.now h.now }
    {
        let mut number = 0;
        for position in deed.positions.items() {
            if self.has_begun(number, position) {
                return true;
            }
            number += 1;
        }
        false
    }

    /// The contract comes to its good end after the point: every awaited obligation is settled, and
    /// some awaited obligation has begun.
    fn is_complete(&self, deed: &Deed) -> bool
        requires { IsMadeFor self.now deed.now }
        ensures { (h : History) → IsPresent self.now deed.now h
            → result ≡ is_complete deed.now h.now }
    {
        self.all_settled(deed) && self.any_begun(deed)
    }

    /// What is given of the contract for its completion, by what happened to it at the point. The
    /// positions are asked only where it can be completed.
    fn completion_inputs(&self, deed: &Deed) -> ContractInputs
        requires { IsMadeFor self.now deed.now }
        ensures { (h : History) → IsPresent self.now deed.now h
            → contract_row_fires self.now.contract result Kind.Completed
            ≡ contract_fires deed.now h.now Kind.Completed }
    {
        let suspends = self.contract_fired.suspended;
        let terminates = self.contract_fired.terminated;
        let remains = is_same_state(self.contract, StateOf::InEffect) && !suspends && !terminates;
        ContractInputs {
            resumes: false,
            suspends,
            terminates,
            complete: remains && self.is_complete(deed),
        }
    }

    /// What is given of the contract for an event of the kind.
    fn contract_inputs(&self, deed: &Deed, kind: Kind) -> ContractInputs
        requires { IsMadeFor self.now deed.now }
        ensures { (h : History) → IsPresent self.now deed.now h
            → contract_row_fires self.now.contract result kind ≡ contract_fires deed.now h.now kind }
    {
        match kind {
            Kind::Completed => self.completion_inputs(deed),
            _ => ContractInputs {
                resumes: self.contract_done.resumes,
                suspends: self.contract_done.suspends,
                terminates: self.contract_done.terminates,
                complete: false,
            },
        }
    }

    /// Whether the condition of an internal event of the contract is true now.
    pub(crate) fn contract_fires(&self, deed: &Deed, kind: Kind) -> bool
        requires { IsMadeFor self.now deed.now }
        ensures { (h : History) → IsPresent self.now deed.now h
            → result ≡ contract_fires deed.now h.now kind }
    {
        let inputs = self.contract_inputs(deed, kind);
        fire_contract(kind, self.contract, &inputs)
    }
}
