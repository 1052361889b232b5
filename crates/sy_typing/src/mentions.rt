ghost use Rattle.std.specs.Prelude.{◌≡◌, ◌++◌, map, OnOk, IfOk};
ghost use Rattle.std.specs.List.{flat_map};
ghost use Rattle.sy_typing.specs.Outlines as outlines;
ghost use Rattle.sy_typing.specs.Outlines.{date_mentions, event_mentions};
ghost use Rattle.sy_typing.specs.Positions.{HasFewPositions};

use crate::positions::event_target;
use std::alloc::Global;
use sy_base::{List, Memory};
use sy_core::Target;
use sy_domain::Ontology;
use sy_spec::ContractTree;
use sy_tree::{DateTree, EventTree, MomentTree, PropTree};
use sy_words::Kind;

/// An internal event: its kind, and what it is about.
pub(crate) type InternalEvent = (Kind, Target);

/// Adds the internal event, if it is one.
fn add_event(
    ontology: &Ontology,
    contract: &ContractTree,
    event: &EventTree,
    out: &mut List<InternalEvent>,
) -> Result<(), Memory>
    requires { HasFewPositions contract.now }
    ensures { OnOk result (out.new ≡ out.old ++ event_mentions ontology.now.table contract.now event.now) }
{
    match event {
        EventTree::Declared(_, _) => Ok(()),
        EventTree::Internal(kind, _, target) => {
            match event_target(ontology, contract, *kind, target) {
                Some(target) => out.push((*kind, target)),
                None => Ok(()),
            }
        }
    }
}

/// Adds the internal event with whose first time a date term begins, if it does.
fn add_date(
    ontology: &Ontology,
    contract: &ContractTree,
    date: &DateTree,
    out: &mut List<InternalEvent>,
) -> Result<(), Memory>
    requires { HasFewPositions contract.now }
    ensures { OnOk result (out.new ≡ out.old ++ date_mentions ontology.now.table contract.now date.now) }
{
    match &date.moment {
        MomentTree::Time(_, event) => add_event(ontology, contract, event, out),
        MomentTree::Fixed(_) | MomentTree::Path(_) => Ok(()),
    }
}

/// Adds the internal events of an event and of a date term.
fn add_with_date(
    ontology: &Ontology,
    contract: &ContractTree,
    event: &EventTree,
    date: &DateTree,
    out: &mut List<InternalEvent>,
) -> Result<(), Memory>
    requires { HasFewPositions contract.now }
    ensures { OnOk result (out.new ≡ out.old
        ++ (event_mentions ontology.now.table contract.now event.now ++ date_mentions ontology.now.table contract.now date.now)) }
{
    add_event(ontology, contract, event, out)?;
    add_date(ontology, contract, date, out)
}

/// Adds the internal events that propositions name.
#[cycle(mentioning)]
fn add_each(
    ontology: &Ontology,
    contract: &ContractTree,
    parts: &[PropTree],
    out: &mut List<InternalEvent>,
) -> Result<(), Memory>
    requires { HasFewPositions contract.now }
    ensures { OnOk result (out.new ≡ out.old ++ flat_map (λ part. part) (map (outlines.mentions ontology.now.table contract.now) parts.now)) }
{
    'part: for part in parts {
        add_mentions(ontology, contract, part, out)?;
    }
    Ok(())
}

/// Adds the internal events that a proposition names.
#[cycle(mentioning)]
fn add_mentions(
    ontology: &Ontology,
    contract: &ContractTree,
    tree: &PropTree,
    out: &mut List<InternalEvent>,
) -> Result<(), Memory>
    requires { HasFewPositions contract.now }
    ensures { OnOk result (out.new ≡ out.old ++ outlines.mentions ontology.now.table contract.now tree.now) }
{
    match tree {
        PropTree::Not(part, _) => add_mentions(ontology, contract, part.get(), out),
        PropTree::All(parts, _) => add_each(ontology, contract, parts.as_slice(), out),
        PropTree::Any(parts, _) => add_each(ontology, contract, parts.as_slice(), out),
        PropTree::Happens(event, _) => add_event(ontology, contract, event, out),
        PropTree::Before(event, date, _) => add_with_date(ontology, contract, event, date, out),
        PropTree::After(event, date, _) => add_with_date(ontology, contract, event, date, out),
        PropTree::Within(event, from, to, _) => {
            add_event(ontology, contract, event, out)?;
            add_date(ontology, contract, from, out)?;
            add_date(ontology, contract, to, out)
        }
        PropTree::Occurs(_, from, to, _) => {
            add_date(ontology, contract, from, out)?;
            add_date(ontology, contract, to, out)
        }
        PropTree::Const(_, _) | PropTree::Compare(_, _, _, _) | PropTree::Holds(_, _) => Ok(()),
    }
}

/// The internal events that a proposition names, anywhere in it.
pub(crate) fn mentions(
    alloc: Global,
    ontology: &Ontology,
    contract: &ContractTree,
    tree: &PropTree,
) -> Result<List<InternalEvent>, Memory>
    requires { HasFewPositions contract.now }
    ensures { IfOk result (λ events. events ≡ outlines.mentions ontology.now.table contract.now tree.now) }
{
    let mut events = List::new(alloc);
    add_mentions(ontology, contract, tree, &mut events)?;
    Ok(events)
}
