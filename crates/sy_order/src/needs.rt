ghost use Rattle.std.specs.Prelude.{◌≡◌, ◌<◌, ◌++◌, [], length, IfOk, OnOk, if◌then◌else◌};
ghost use Rattle.std.specs.List.{flat_map};
ghost use Rattle.sy_core.specs.declared.deed.Deed.{Deed};
ghost use Rattle.sy_core.specs.declared.kind.Target.TheVariants as at;
ghost use Rattle.sy_core.specs.Mentions as mentioned;
ghost use Rattle.sy_core.specs.Conditions.{survives, is_awaited};
ghost use Rattle.sy_core.specs.Prerequisites as defined;
ghost use Rattle.sy_order.specs.Nodes.{as_defined};
ghost use Rattle.sy_order.specs.Machine.Tables.{with_remedies};

use crate::names::{InternalEvent, names_of};
use crate::node::{Node, Nodes};
use crate::table::Table;
use std::alloc::Global;
use sy_base::Memory;
use sy_core::{Goal, Position, Prop, Target, is_awaited, survives};
use sy_words::{Form, Kind, Verb};

/// What a node needs.
pub(crate) fn needs(alloc: Global, table: &Table, node: Node) -> Result<Nodes, Memory>
    ensures { IfOk result (λ nodes. nodes ≡ defined.needs table.now (as_defined node)) }
{
    let mut nodes = Nodes::new(alloc);
    push_needs(alloc, &mut nodes, table, node)?;
    Ok(nodes)
}

/// Adds what a node needs.
fn push_needs(alloc: Global, nodes: &mut Nodes, table: &Table, node: Node) -> Result<(), Memory>
    ensures { OnOk result (nodes.new ≡ nodes.old ++ defined.needs table.now (as_defined node)) }
{
    match node {
        Node::Exert(_) => Ok(()),
        Node::Trig(number) => match table.position(number) {
            Some(position) => push_trig_needs(alloc, nodes, table, number, position),
            None => Ok(()),
        },
        Node::Act(number) => match table.position(number) {
            Some(position) => push_act_needs(alloc, nodes, table, number, position),
            None => Ok(()),
        },
        Node::End(number) => match table.position(number) {
            Some(position) => push_end_needs(alloc, nodes, table, number, position),
            None => Ok(()),
        },
        Node::Contract => push_contract_needs(nodes, table),
    }
}

/// Adds what the creation of a position needs.
fn push_trig_needs(
    alloc: Global,
    nodes: &mut Nodes,
    table: &Table,
    number: u32,
    position: &Position,
) -> Result<(), Memory>
    requires { number < length table.now.positions }
    ensures { OnOk result (nodes.new ≡ nodes.old ++ defined.trig_needs table.now number position.now) }
{
    table.push_exerts(nodes, Verb::Triggers, number)?;
    push_named(alloc, nodes, table, &position.trigger)
}

/// Adds what the coming into effect of a position needs.
fn push_act_needs(
    alloc: Global,
    nodes: &mut Nodes,
    table: &Table,
    number: u32,
    position: &Position,
) -> Result<(), Memory>
    requires { number < length table.now.positions }
    ensures { OnOk result (nodes.new ≡ nodes.old ++ defined.act_needs table.now number position.now) }
{
    nodes.push(Node::Trig(number))?;
    push_named(alloc, nodes, table, &position.antecedent)?;
    table.push_exerts(nodes, Verb::Suspends, number)?;
    table.push_exerts(nodes, Verb::Resumes, number)?;
    nodes.push_own_exert(position.form, number)
}

/// Adds what the end of a position needs.
fn push_end_needs(
    alloc: Global,
    nodes: &mut Nodes,
    table: &Table,
    number: u32,
    position: &Position,
) -> Result<(), Memory>
    requires { number < length table.now.positions }
    ensures { OnOk result (nodes.new ≡ nodes.old ++ defined.end_needs table.now number position.now) }
{
    let Position {
        form,
        antecedent,
        goal,
        ..
    } = position;
    nodes.push(Node::Trig(number))?;
    nodes.push(Node::Act(number))?;
    push_named(alloc, nodes, table, antecedent)?;
    push_named_by_goal(alloc, nodes, table, goal)?;
    table.push_exerts(nodes, Verb::Discharges, number)?;
    table.push_exerts(nodes, Verb::Terminates, number)?;
    push_contract_end(nodes, table, *form)?;
    nodes.push_own_exert(*form, number)
}

/// Adds the exertions that end the contract, for a form that doesn't survive it.
fn push_contract_end(nodes: &mut Nodes, table: &Table, form: Form) -> Result<(), Memory>
    ensures { OnOk result (nodes.new ≡ nodes.old ++ (if survives form then [] else defined.exerts table.now Verb.Terminates at.Contract)) }
{
    if survives(form) {
        Ok(())
    } else {
        table.push_contract_exerts(nodes, Verb::Terminates)
    }
}

/// Adds what the contract's completion needs: all exertions that act on the contract, and each
/// obligation that it waits for, with its remedies.
fn push_contract_needs(nodes: &mut Nodes, table: &Table) -> Result<(), Memory>
    ensures { OnOk result (nodes.new ≡ nodes.old ++ defined.needs table.now defined.Contract) }
{
    table.push_all_contract_exerts(nodes)?;
    push_completion(nodes, table)
}

/// Adds the obligations that the contract's completion waits for, each with its remedies.
fn push_completion(nodes: &mut Nodes, table: &Table) -> Result<(), Memory>
    ensures { OnOk result (nodes.new ≡ nodes.old ++ defined.completion_nodes table.now) }
{
    for (number, position) in table.positions().iter().enumerate() {
        push_awaited(nodes, table, number as u32, position.form)?;
    }
    Ok(())
}

/// Adds the nodes of a position and of its remedies, where the contract's completion waits for it.
fn push_awaited(nodes: &mut Nodes, table: &Table, number: u32, form: Form) -> Result<(), Memory>
    requires { number < length table.now.positions }
    ensures { OnOk result (nodes.new ≡ nodes.old ++ (if is_awaited form then with_remedies table.now number else [])) }
{
    if is_awaited(form) {
        push_with_remedies(nodes, table, number)?;
    }
    Ok(())
}

/// Adds the nodes of an obligation and of its remedies.
fn push_with_remedies(nodes: &mut Nodes, table: &Table, number: u32) -> Result<(), Memory>
    requires { number < length table.now.positions }
    ensures { OnOk result (nodes.new ≡ nodes.old ++ with_remedies table.now number) }
{
    nodes.push_obligation(number)?;
    for remedy in table.remedies(number) {
        nodes.push_obligation(*remedy)?;
    }
    Ok(())
}

/// Adds the nodes of the events that a duty names.
fn push_named_by_goal(
    alloc: Global,
    nodes: &mut Nodes,
    table: &Table,
    goal: &Goal,
) -> Result<(), Memory>
    ensures { OnOk result (nodes.new ≡ nodes.old ++ defined.named_nodes table.now (mentioned.names_of_duty goal.now)) }
{
    match goal {
        Goal::Duty(consequent) => push_named(alloc, nodes, table, consequent),
        Goal::Act(_) => Ok(()),
    }
}

/// Adds the nodes of the events that a proposition names.
fn push_named(alloc: Global, nodes: &mut Nodes, table: &Table, prop: &Prop) -> Result<(), Memory>
    ensures { OnOk result (nodes.new ≡ nodes.old ++ defined.named_nodes table.now (mentioned.names_of prop.now)) }
{
    let names = names_of(alloc, prop)?;
    for name in names.items() {
        push_event(nodes, table, *name)?;
    }
    Ok(())
}

/// Adds the nodes of an internal event that is named.
fn push_event(nodes: &mut Nodes, table: &Table, name: InternalEvent) -> Result<(), Memory>
    ensures { OnOk result (nodes.new ≡ nodes.old ++ defined.event_nodes table.now name.0 name.1) }
{
    match name {
        (kind, Target::Contract) => push_contract_event(nodes, table, kind),
        (kind, Target::Position(number)) => push_position_event(nodes, number, kind),
    }
}

/// Adds the nodes of an event of the contract.
fn push_contract_event(nodes: &mut Nodes, table: &Table, kind: Kind) -> Result<(), Memory>
    ensures { OnOk result (nodes.new ≡ nodes.old ++ defined.contract_event_nodes table.now kind) }
{
    match kind {
        Kind::Resumed => table.push_contract_exerts(nodes, Verb::Resumes),
        Kind::Suspended => table.push_contract_exerts(nodes, Verb::Suspends),
        Kind::Terminated => table.push_contract_exerts(nodes, Verb::Terminates),
        Kind::Completed => nodes.push(Node::Contract),
        _ => Ok(()),
    }
}

/// Adds the node of an event of a position.
fn push_position_event(nodes: &mut Nodes, number: u32, kind: Kind) -> Result<(), Memory>
    ensures { (deed : Deed) → OnOk result (nodes.new ≡ nodes.old ++ defined.position_event_nodes deed number kind) }
{
    match kind {
        Kind::Exerted => nodes.push(Node::Exert(number)),
        Kind::Triggered => nodes.push(Node::Trig(number)),
        Kind::Activated | Kind::Resumed | Kind::Suspended => nodes.push(Node::Act(number)),
        Kind::Completed => Ok(()),
        _ => nodes.push(Node::End(number)),
    }
}
