ghost use Rattle.std.specs.Prelude.{◌≡◌, ◌++◌, OnOk};
ghost use Rattle.sy_core.specs.Soundness as soundness;
ghost use Rattle.sy_names.specs.Targets as targets;
ghost use Rattle.sy_names.specs.Targets.{unknown_in_situation, unknown_state, unknown_target};

use crate::uses::Uses;
use sy_base::{List, Memory, Text};
use sy_core::{StateOf, state_named};
use sy_domain::{Failure, fail_unless};
use sy_lex::Written;
use sy_tree::{SituationTree, TargetTree};
use sy_words::Form;

/// Whether a position of a form can be in a state.
pub fn is_state_of(form: Form, state: StateOf) -> bool
    ensures { result ≡ soundness.is_state_of form state }
{
    match state {
        StateOf::Null | StateOf::Create | StateOf::InEffect | StateOf::Suspension => true,
        StateOf::Fulfillment | StateOf::Violation | StateOf::Discharge => {
            matches!(form, Form::Obligation | Form::Surviving)
        }
        StateOf::SuccessfulTermination => matches!(form, Form::Power),
        StateOf::UnsuccessfulTermination => true,
        StateOf::Form => false,
    }
}

/// Whether it is a state of the contract that may be named.
pub fn is_contract_state(state: StateOf) -> bool
    ensures { result ≡ soundness.is_contract_state state }
{
    matches!(
        state,
        StateOf::InEffect
            | StateOf::Suspension
            | StateOf::SuccessfulTermination
            | StateOf::UnsuccessfulTermination
    )
}

/// Whether a position of a form can be in the state with a name.
fn names_state_of(form: Form, name: &Text) -> bool
    ensures { result ≡ targets.names_state_of form name.now }
{
    match state_named(name.bytes()) {
        Some(state) => is_state_of(form, state),
        None => false,
    }
}

/// Whether a name is that of a state of the contract that may be named.
fn names_contract_state(name: &Text) -> bool
    ensures { result ≡ targets.names_contract_state name.now }
{
    match state_named(name.bytes()) {
        Some(state) => is_contract_state(state),
        None => false,
    }
}

impl<'a> Uses<'a> {
    /// The name of a position.
    pub(crate) fn check_target(
        &self,
        target: &TargetTree,
        out: &mut List<Failure>,
    ) -> Result<(), Memory>
        ensures { OnOk result (out.new ≡ out.old ++ unknown_target self.now.scope.now target.now) }
    {
        match target {
            TargetTree::Named(name) => {
                let is_known = self.scope.form(&name.text).is_some();
                fail_unless(self.alloc, is_known, name, out)
            }
            TargetTree::Contract(_) => Ok(()),
        }
    }

    /// The name of a state of a target.
    fn check_state(
        &self,
        target: &TargetTree,
        name: &Written,
        out: &mut List<Failure>,
    ) -> Result<(), Memory>
        ensures { OnOk result (out.new ≡ out.old ++ unknown_state self.now.scope.now target.now name.now) }
    {
        let is_known = match target {
            TargetTree::Named(target) => match self.scope.form(&target.text) {
                Some(form) => names_state_of(form, &name.text),
                None => true,
            },
            TargetTree::Contract(_) => names_contract_state(&name.text),
        };
        fail_unless(self.alloc, is_known, name, out)
    }

    /// What is said of a state.
    pub(crate) fn check_situation(
        &self,
        situation: &SituationTree,
        out: &mut List<Failure>,
    ) -> Result<(), Memory>
        ensures { OnOk result (out.new ≡ out.old ++ unknown_in_situation self.now.scope.now situation.now) }
    {
        self.check_target(&situation.target, out)?;
        self.check_state(&situation.target, &situation.state, out)
    }
}
