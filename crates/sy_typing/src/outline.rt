ghost use Rattle.std.specs.Prelude.{◌≡◌, ◌++◌, map, OnOk, IfOk};
ghost use Rattle.sy_domain.specs.Ontologies.{domain_of};
ghost use Rattle.sy_typing.specs.Outlines as outlines;
ghost use Rattle.sy_typing.specs.Positions.{HasFewPositions};

use crate::mentions::{InternalEvent, mentions};
use crate::positions::act_target;
use sqlite_items::Items;
use std::alloc::Global;
use sy_base::{List, Memory};
use sy_core::{Act, Deed, Ev, Goal, Position, Prop, Target};
use sy_domain::Ontology;
use sy_spec::{ActTree, ContractTree, ObligTree, PowerTree, SpecTree};
use sy_tree::PropTree;
use sy_words::{Form, Verb};

/// That one of these events happens.
fn one_happens(alloc: Global, events: &[InternalEvent]) -> Result<Prop, Memory>
    ensures { IfOk result (λ prop. prop ≡ outlines.one_happens events.now) }
{
    let mut parts = Items::new(alloc);
    'event: for event in events {
        parts.push(Prop::Happens(Ev::Inner(event.0, event.1)))?;
    }
    Ok(Prop::Any(parts))
}

/// The outline of a proposition: that one of the internal events happens that it names.
pub fn prop_outline(
    alloc: Global,
    ontology: &Ontology,
    contract: &ContractTree,
    tree: &PropTree,
) -> Result<Prop, Memory>
    requires { HasFewPositions contract.now }
    ensures { IfOk result (λ prop. prop ≡ outlines.one_happens (outlines.mentions ontology.now.table contract.now tree.now)) }
{
    let events = mentions(alloc, ontology, contract, tree)?;
    one_happens(alloc, events.items())
}

/// The outline of a trigger, which may be left out.
fn trigger_outline(
    alloc: Global,
    ontology: &Ontology,
    contract: &ContractTree,
    trigger: &Option<PropTree>,
) -> Result<Prop, Memory>
    requires { HasFewPositions contract.now }
    ensures { IfOk result (λ prop. prop ≡ outlines.one_happens (outlines.trigger_mentions ontology.now.table contract.now trigger.now)) }
{
    match trigger {
        Some(tree) => prop_outline(alloc, ontology, contract, tree),
        None => one_happens(alloc, &[]),
    }
}

/// The outline of an obligation, surviving or not.
fn obligation_outline(
    alloc: Global,
    ontology: &Ontology,
    contract: &ContractTree,
    form: Form,
    tree: &ObligTree,
) -> Result<Position, Memory>
    requires { HasFewPositions contract.now }
    ensures { IfOk result (λ p. p ≡ outlines.obligation_outline ontology.now.table contract.now form tree.now) }
{
    Ok(Position {
        name: tree.name.text.copy(alloc)?,
        form,
        first: tree.debtor.text.copy(alloc)?,
        second: tree.creditor.text.copy(alloc)?,
        trigger: trigger_outline(alloc, ontology, contract, &tree.trigger)?,
        antecedent: prop_outline(alloc, ontology, contract, &tree.antecedent)?,
        goal: Goal::Duty(prop_outline(alloc, ontology, contract, &tree.consequent)?),
    })
}

/// The goal of a power: its act. One that can't be done to its target is refused by a check; for it
/// another stands here.
pub fn act_outline(ontology: &Ontology, contract: &ContractTree, tree: &ActTree) -> Goal
    requires { HasFewPositions contract.now }
    ensures { result ≡ outlines.act_outline ontology.now.table contract.now tree.now }
{
    let verb = tree.verb.verb;
    match act_target(ontology, contract, verb, &tree.target) {
        Some(target) => Goal::Act(Act { verb, target }),
        None => Goal::Act(Act {
            verb: Verb::Suspends,
            target: Target::Contract,
        }),
    }
}

/// The outline of a power.
fn power_outline(
    alloc: Global,
    ontology: &Ontology,
    contract: &ContractTree,
    tree: &PowerTree,
) -> Result<Position, Memory>
    requires { HasFewPositions contract.now }
    ensures { IfOk result (λ p. p ≡ outlines.power_outline ontology.now.table contract.now tree.now) }
{
    Ok(Position {
        name: tree.name.text.copy(alloc)?,
        form: Form::Power,
        first: tree.holder.text.copy(alloc)?,
        second: tree.other_party.text.copy(alloc)?,
        trigger: trigger_outline(alloc, ontology, contract, &tree.trigger)?,
        antecedent: prop_outline(alloc, ontology, contract, &tree.antecedent)?,
        goal: act_outline(ontology, contract, &tree.act),
    })
}

/// Adds the outlines of obligations.
fn add_obligations(
    alloc: Global,
    ontology: &Ontology,
    contract: &ContractTree,
    form: Form,
    trees: &[ObligTree],
    out: &mut List<Position>,
) -> Result<(), Memory>
    requires { HasFewPositions contract.now }
    ensures { OnOk result (out.new ≡ out.old ++ map (outlines.obligation_outline ontology.now.table contract.now form) trees.now) }
{
    'tree: for tree in trees {
        out.push(obligation_outline(alloc, ontology, contract, form, tree)?)?;
    }
    Ok(())
}

/// Adds the outlines of powers.
fn add_powers(
    alloc: Global,
    ontology: &Ontology,
    contract: &ContractTree,
    trees: &[PowerTree],
    out: &mut List<Position>,
) -> Result<(), Memory>
    requires { HasFewPositions contract.now }
    ensures { OnOk result (out.new ≡ out.old ++ map (outlines.power_outline ontology.now.table contract.now) trees.now) }
{
    'tree: for tree in trees {
        out.push(power_outline(alloc, ontology, contract, tree)?)?;
    }
    Ok(())
}

/// The outlines of all positions of a contract.
fn position_outlines(
    alloc: Global,
    ontology: &Ontology,
    contract: &ContractTree,
) -> Result<List<Position>, Memory>
    requires { HasFewPositions contract.now }
    ensures { IfOk result (λ positions. positions ≡ outlines.position_outlines ontology.now.table contract.now) }
{
    let mut positions = List::new(alloc);
    let obligations = contract.obligations.items();
    let surviving = contract.surviving.items();
    add_obligations(
        alloc,
        ontology,
        contract,
        Form::Obligation,
        obligations,
        &mut positions,
    )?;
    add_obligations(
        alloc,
        ontology,
        contract,
        Form::Surviving,
        surviving,
        &mut positions,
    )?;
    add_powers(
        alloc,
        ontology,
        contract,
        contract.powers.items(),
        &mut positions,
    )?;
    Ok(positions)
}

/// The outline of a specification that has these types.
#[tactic(auto, unfolding(crate::specs::Outlines::outline))]
pub(crate) fn outline(alloc: Global, ontology: &Ontology, tree: &SpecTree) -> Result<Deed, Memory>
    requires few { HasFewPositions tree.now.contract }
    requires types { ontology.now ≡ domain_of tree.now }
    ensures { IfOk result (λ deed. deed ≡ outlines.outline tree.now) }
{
    Ok(Deed {
        unit: tree.contract.unit.unit,
        start: 0,
        events: List::new(alloc),
        choices: List::new(alloc),
        positions: position_outlines(alloc, ontology, &tree.contract)?,
        posts: List::new(alloc),
        order: List::new(alloc),
    })
}
