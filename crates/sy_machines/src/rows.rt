ghost use Rattle.std.specs.Prelude.{◌≡◌, ◌||◌, ◌&&◌, ℕ, List, not};
ghost use Rattle.sy_core.specs.declared.position.Position.{Position};
ghost use Rattle.sy_core.specs.declared.deed.Deed.{Deed};
ghost use Rattle.sy_core.specs.declared.kind.Target.TheVariants as target;
ghost use Rattle.sy_core.specs.States.{same_state};
ghost use Rattle.sy_core.specs.Moments.{Moment};
ghost use Rattle.sy_core.specs.Conditions.{survives, position_fires, contract_fires};
ghost use Rattle.sy_machines.specs.Rows.{is_live, allows_exertion, is_alive, is_in_force, is_created, remains_in_force, row_fires, contract_row_fires};
ghost use Rattle.sy_machines.specs.Given.{AreInputsOf, AreContractInputsOf, IsCompletionOf};

use crate::inputs::{ContractInputs, Inputs};
use sy_core::{StateOf, is_false, is_obligation, is_power, is_same_state, is_true, survives};
use sy_words::{Form, Kind};

/// A position at a point.
#[derive(Drop)]
struct Place<'a> {
    form: Form,
    /// Its state at the start of the point.
    state: StateOf,
    inputs: &'a Inputs,
}

impl Place<'_> {
    /// The position's state is this one.
    fn was(&self, state: StateOf) -> bool
        ensures { result ≡ same_state self.now.state state }
    {
        is_same_state(self.state, state)
    }

    /// The contract's state is this one.
    fn contract_was(&self, state: StateOf) -> bool
        ensures { result ≡ same_state self.now.inputs.now.contract state }
    {
        is_same_state(self.inputs.contract, state)
    }

    /// The contract is in effect, or the form doesn't heed it.
    fn is_live(&self) -> bool
        ensures { result ≡ is_live self.now.form self.now.inputs.now }
    {
        survives(self.form) || self.contract_was(StateOf::InEffect)
    }

    /// The contract lets the power be exerted. Under a suspended one, only a power over the
    /// contract itself can be.
    fn allows_exertion(&self) -> bool
        ensures { result ≡ allows_exertion self.now.inputs.now }
    {
        self.contract_was(StateOf::InEffect)
            || (self.contract_was(StateOf::Suspension) && self.inputs.on_contract)
    }

    /// The position was created and hasn't come to its end, or is created here.
    fn is_alive(&self) -> bool
        ensures { result ≡ is_alive self.now.state self.now.inputs.now.fired }
    {
        self.was(StateOf::Create)
            || self.was(StateOf::InEffect)
            || self.was(StateOf::Suspension)
            || self.inputs.fired.triggered
    }

    /// The position was in effect, or comes into effect here.
    fn is_in_force(&self) -> bool
        ensures { result ≡ is_in_force self.now.state self.now.inputs.now.fired }
    {
        self.was(StateOf::InEffect) || self.inputs.fired.activated || self.inputs.fired.resumed
    }

    /// The position was created and waits for its antecedent, or is created here.
    fn is_created(&self) -> bool
        ensures { result ≡ is_created self.now.state self.now.inputs.now.fired }
    {
        self.was(StateOf::Create) || self.inputs.fired.triggered
    }

    /// The duty is in force, and nothing here suspends or ends it.
    fn remains_in_force(&self) -> bool
        ensures { result ≡ remains_in_force self.now.form self.now.state self.now.inputs.now }
    {
        self.is_live()
            && self.is_in_force()
            && !self.inputs.fired.suspended
            && !self.inputs.fired.discharged
            && !self.inputs.fired.terminated
    }

    /// A power in effect is exerted where the narrative exerts it and the contract allows it.
    fn exerted(&self) -> bool
        ensures { result ≡ row_fires self.now.form self.now.state self.now.inputs.now Kind.Exerted }
    {
        is_power(self.form)
            && self.inputs.asked
            && self.was(StateOf::InEffect)
            && self.allows_exertion()
    }

    /// A position that isn't there yet is triggered where its trigger is True, or a power triggers
    /// it.
    fn triggered(&self) -> bool
        ensures { result ≡ row_fires self.now.form self.now.state self.now.inputs.now Kind.Triggered }
    {
        self.is_live()
            && self.was(StateOf::Null)
            && (is_true(self.inputs.trigger) || self.inputs.triggers)
    }

    /// A created position is activated where its antecedent is True.
    fn activated(&self) -> bool
        ensures { result ≡ row_fires self.now.form self.now.state self.now.inputs.now Kind.Activated }
    {
        self.is_live() && self.is_created() && is_true(self.inputs.antecedent)
    }

    /// A suspended position is resumed where a power resumes it.
    fn resumed(&self) -> bool
        ensures { result ≡ row_fires self.now.form self.now.state self.now.inputs.now Kind.Resumed }
    {
        self.was(StateOf::Suspension) && self.inputs.resumes
    }

    /// A position in force is suspended where a power suspends it, and it is not a power that is
    /// exerted here itself.
    fn suspended(&self) -> bool
        ensures { result ≡ row_fires self.now.form self.now.state self.now.inputs.now Kind.Suspended }
    {
        self.is_in_force() && self.inputs.suspends && !self.inputs.fired.exerted
    }

    /// An obligation that remains in force is fulfilled where its consequent is True.
    fn fulfilled(&self) -> bool
        ensures { result ≡ row_fires self.now.form self.now.state self.now.inputs.now Kind.Fulfilled }
    {
        is_obligation(self.form) && self.remains_in_force() && is_true(self.inputs.consequent)
    }

    /// An obligation that remains in force is violated where its consequent is False.
    fn violated(&self) -> bool
        ensures { result ≡ row_fires self.now.form self.now.state self.now.inputs.now Kind.Violated }
    {
        is_obligation(self.form) && self.remains_in_force() && is_false(self.inputs.consequent)
    }

    /// A created position expires where its antecedent is False and stays so.
    fn expired(&self) -> bool
        ensures { result ≡ row_fires self.now.form self.now.state self.now.inputs.now Kind.Expired }
    {
        self.is_live()
            && self.is_created()
            && self.inputs.final_antecedent
            && is_false(self.inputs.antecedent)
    }

    /// An obligation that hasn't come to its end is discharged where a power discharges it.
    fn discharged(&self) -> bool
        ensures { result ≡ row_fires self.now.form self.now.state self.now.inputs.now Kind.Discharged }
    {
        is_obligation(self.form) && self.is_alive() && self.inputs.discharges
    }

    /// A power terminates the position, or the contract with it, unless it survives the contract.
    fn is_ended(&self) -> bool
        ensures { result
            ≡ (self.now.inputs.now.terminates || (not (survives self.now.form) && self.now.inputs.now.ends)) }
    {
        self.inputs.terminates || (!survives(self.form) && self.inputs.ends)
    }

    /// A position that hasn't come to its end is terminated where a power ends it, and it is not a
    /// power that is exerted here itself.
    fn terminated(&self) -> bool
        ensures { result ≡ row_fires self.now.form self.now.state self.now.inputs.now Kind.Terminated }
    {
        self.is_alive() && self.is_ended() && !self.inputs.fired.exerted
    }

    /// Whether an event of the kind happens to the position.
    fn fires(&self, kind: Kind) -> bool
        ensures { result ≡ row_fires self.now.form self.now.state self.now.inputs.now kind }
    {
        match kind {
            Kind::Exerted => self.exerted(),
            Kind::Triggered => self.triggered(),
            Kind::Activated => self.activated(),
            Kind::Resumed => self.resumed(),
            Kind::Suspended => self.suspended(),
            Kind::Fulfilled => self.fulfilled(),
            Kind::Violated => self.violated(),
            Kind::Expired => self.expired(),
            Kind::Discharged => self.discharged(),
            Kind::Terminated => self.terminated(),
            Kind::Completed => false,
        }
    }
}

/// Whether an event of the kind happens at a point to a position of the form, which has this state
/// at the start of the point.
pub fn fire(kind: Kind, form: Form, state: StateOf, inputs: &Inputs) -> bool
    ensures row { result ≡ row_fires form state inputs.now kind }

    // Where the inputs are those of a position at a moment, the row is the event's condition there.
    ensures condition { (deed : Deed) (now : Moment) (before : List Moment) (i : ℕ) (p : Position)
        → AreInputsOf inputs.now deed now before i p → form ≡ p.form → state ≡ now.state (target.Position i)
        → result ≡ position_fires deed now before i p kind }
{
    let place = Place {
        form,
        state,
        inputs,
    };
    place.fires(kind)
}

/// Whether an event of the kind happens to the contract, by the row of the kind.
fn contract_row(kind: Kind, state: StateOf, inputs: &ContractInputs) -> bool
    ensures { result ≡ contract_row_fires state inputs.now kind }
{
    let is_in_effect = is_same_state(state, StateOf::InEffect);
    match kind {
        Kind::Resumed => is_same_state(state, StateOf::Suspension) && inputs.resumes,
        Kind::Suspended => is_in_effect && inputs.suspends,
        Kind::Terminated => inputs.terminates,
        Kind::Completed => {
            is_in_effect && !inputs.suspends && !inputs.terminates && inputs.complete
        }
        Kind::Exerted
        | Kind::Triggered
        | Kind::Activated
        | Kind::Fulfilled
        | Kind::Violated
        | Kind::Expired
        | Kind::Discharged => false,
    }
}

/// Whether an event of the kind happens at a point to the contract, which has this state at the
/// start of the point.
pub fn fire_contract(kind: Kind, state: StateOf, inputs: &ContractInputs) -> bool
    ensures row { result ≡ contract_row_fires state inputs.now kind }

    // Where the inputs are those of the contract at a moment, the row is the event's condition there.
    // For its completion the moment also has its suspension and its termination already.
    ensures condition { (deed : Deed) (now : Moment)
        → AreContractInputsOf inputs.now deed now → state ≡ now.state target.Contract
        → (kind ≡ Kind.Completed → IsCompletionOf inputs.now deed now)
        → result ≡ contract_fires deed now kind }
{
    contract_row(kind, state, inputs)
}
