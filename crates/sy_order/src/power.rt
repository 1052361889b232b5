ghost use Rattle.std.specs.Prelude.{◌≡◌, ◌≤◌, ◌<◌, ◌++◌, ◌==◌, ℕ, [], length, slice_index_or, replicate, IfOk, OnOk};
ghost use Rattle.std.specs.List.{flat_map};
ghost use Rattle.sy_core.specs.declared.kind.Target.TheVariants as at;
ghost use Rattle.sy_core.specs.Conditions.{verb_number};
ghost use Rattle.sy_order.specs.Machine.Powers.{powers_on, power_on, exertion, AreLists, AreMore};

use crate::node::{Node, Nodes};
use std::alloc::Global;
use sy_base::{List, Memory};
use sy_core::{Act, Goal, Position, Target};
use sy_words::Verb;

/// A power, by its place in the deed's `positions`, and what it does to its target.
#[derive(Clone, Copy, Debug)]
pub(crate) struct Power {
    pub verb: Verb,
    pub number: u32,
}

/// So many empty lists.
pub(crate) fn empty_lists<T: Drop>(alloc: Global, count: usize) -> Result<Vec<List<T>>, Memory>
    ensures { IfOk result (λ lists. lists.items ≡ replicate count []) }
{
    let mut lists = Vec::new(alloc);
    'lists: for _ in 0..count {
        lists.push(List::new(alloc))?;
    }
    Ok(lists)
}

/// For each position the powers that act on it, in order.
pub(crate) fn powers_on_positions(
    alloc: Global,
    positions: &[Position],
) -> Result<Vec<List<Power>>, Memory>
    requires { length positions.now ≤ 500 }
    ensures { IfOk result
        (λ lists. AreLists (length positions.now) (λ k. powers_on (at.Position k) positions.now) lists.items) }
{
    let mut lists = empty_lists(alloc, positions.len())?;
    for (number, position) in positions.iter().enumerate() {
        add_to_its_target(&mut lists, number as u32, &position.goal)?;
    }
    Ok(lists)
}

/// Adds the power to those of the position that it acts on.
fn add_to_its_target(lists: &mut Vec<List<Power>>, number: u32, goal: &Goal) -> Result<(), Memory>
    ensures { OnOk result (AreMore (λ k. power_on (at.Position k) number goal.now) lists.old.items lists.new.items) }
{
    if let Goal::Act(
        Act {
            verb,
            target: Target::Position(position),
        },
    ) = goal
    {
        if let Some(list) = lists.get_mut(*position as usize) {
            list.push(Power {
                verb: *verb,
                number,
            })?;
        }
    }
    Ok(())
}

/// The powers that act on the contract, in order.
pub(crate) fn powers_on_contract(
    alloc: Global,
    positions: &[Position],
) -> Result<List<Power>, Memory>
    requires { length positions.now ≤ 500 }
    ensures { IfOk result (λ list. list ≡ powers_on at.Contract positions.now) }
{
    let mut list = List::new(alloc);
    for (number, position) in positions.iter().enumerate() {
        add_on_contract(&mut list, number as u32, &position.goal)?;
    }
    Ok(list)
}

/// Adds the power, if it acts on the contract.
fn add_on_contract(list: &mut List<Power>, number: u32, goal: &Goal) -> Result<(), Memory>
    ensures { OnOk result (list.new ≡ list.old ++ power_on at.Contract number goal.now) }
{
    match goal {
        Goal::Act(
            Act {
                verb,
                target: Target::Contract,
            },
        ) => list.push(Power {
            verb: *verb,
            number,
        }),
        _ => Ok(()),
    }
}

/// The verbs are the same.
fn is_same_verb(a: Verb, b: Verb) -> bool
    ensures { result ≡ (verb_number a == verb_number b) }
{
    a as u8 == b as u8
}

/// Adds the exertions of those powers that do this.
pub(crate) fn push_exertions(nodes: &mut Nodes, powers: &[Power], verb: Verb) -> Result<(), Memory>
    ensures { OnOk result (nodes.new ≡ nodes.old ++ flat_map (exertion verb) powers.now) }
{
    for power in powers {
        push_exertion(nodes, *power, verb)?;
    }
    Ok(())
}

/// Adds the exertion of a power, if it does this.
fn push_exertion(nodes: &mut Nodes, power: Power, verb: Verb) -> Result<(), Memory>
    ensures { OnOk result (nodes.new ≡ nodes.old ++ exertion verb power) }
{
    if is_same_verb(power.verb, verb) {
        nodes.push(Node::Exert(power.number))?;
    }
    Ok(())
}
