ghost use Rattle.std.specs.Prelude.{◌≡◌, ◌<◌};
ghost use Rattle.sy_typing.specs.Positions as positions;
ghost use Rattle.sy_typing.specs.Positions.{HasFewPositions};

use sy_core::Target;
use sy_domain::{Meaning, Ontology};
use sy_spec::ContractTree;
use sy_tree::TargetTree;
use sy_types::{is_act_on, is_contract_act, is_contract_kind, is_kind_of};
use sy_words::{Form, Kind, Verb};

/// How many positions of a form a contract has.
fn count_of(contract: &ContractTree, form: Form) -> usize
    ensures { result ≡ positions.count_of contract.now form }
{
    match form {
        Form::Obligation => contract.obligations.items().len(),
        Form::Surviving => contract.surviving.items().len(),
        Form::Power => contract.powers.items().len(),
    }
}

/// How many positions stand before those of a form.
fn before_form(contract: &ContractTree, form: Form) -> usize
    requires { HasFewPositions contract.now }
    ensures { result ≡ positions.before_form contract.now form }
{
    match form {
        Form::Obligation => 0,
        Form::Surviving => contract.obligations.items().len(),
        Form::Power => contract.obligations.items().len() + contract.surviving.items().len(),
    }
}

/// The number of a position among all.
fn number_of(contract: &ContractTree, form: Form, index: usize) -> u32
    requires few { HasFewPositions contract.now }
    requires there { index < positions.count_of contract.now form }
    ensures { result ≡ positions.number_of contract.now form index }
{
    (before_form(contract, form) + index) as u32
}

/// The position of a form with this number among those of its form, where it is there and passes
/// the test.
pub fn position_if(
    contract: &ContractTree,
    form: Form,
    index: usize,
    passes: bool,
) -> Option<Target>
    requires few { HasFewPositions contract.now }
    ensures { result ≡ positions.position_if contract.now passes form index }
{
    if index < count_of(contract, form) && passes {
        Some(Target::Position(number_of(contract, form, index)))
    } else {
        None
    }
}

/// The target of an internal event of a kind, where it is one that has such events.
pub fn event_target(
    ontology: &Ontology,
    contract: &ContractTree,
    kind: Kind,
    target: &TargetTree,
) -> Option<Target>
    requires few { HasFewPositions contract.now }
    ensures { result ≡ positions.event_target ontology.now.table contract.now kind target.now }
{
    match target {
        TargetTree::Named(name) => match ontology.meaning(&name.text) {
            Some(Meaning::Position(form, index)) => {
                position_if(contract, form, index, is_kind_of(form, kind))
            }
            _ => None,
        },
        TargetTree::Contract(_) if is_contract_kind(kind) => Some(Target::Contract),
        TargetTree::Contract(_) => None,
    }
}

/// The target of an act, where it is one to which the act can be done.
pub fn act_target(
    ontology: &Ontology,
    contract: &ContractTree,
    verb: Verb,
    target: &TargetTree,
) -> Option<Target>
    requires few { HasFewPositions contract.now }
    ensures { result ≡ positions.act_target ontology.now.table contract.now verb target.now }
{
    match target {
        TargetTree::Named(name) => match ontology.meaning(&name.text) {
            Some(Meaning::Position(form, index)) => {
                position_if(contract, form, index, is_act_on(form, verb))
            }
            _ => None,
        },
        TargetTree::Contract(_) if is_contract_act(verb) => Some(Target::Contract),
        TargetTree::Contract(_) => None,
    }
}
