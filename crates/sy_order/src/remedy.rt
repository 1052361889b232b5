ghost use Rattle.std.specs.Prelude.{◌≡◌, ◌≤◌, ◌<◌, ℕ, length, IfOk, OnOk};
ghost use Rattle.sy_order.specs.Machine.Powers.{AreLists, AreMore};
ghost use Rattle.sy_order.specs.Machine.Remedies.{given_remedies, remedy_of, violated_by, NoneEndsIn, AreNoted, ending_in};

use crate::names::{InternalEvent, names_of};
use crate::power::empty_lists;
use std::alloc::Global;
use sy_base::{List, Memory};
use sy_core::{Position, Target, is_obligation};
use sy_words::Kind;

/// For each position its remedies, by number: the obligations whose triggers name its violation.
pub(crate) fn remedies(alloc: Global, positions: &[Position]) -> Result<Vec<List<u32>>, Memory>
    requires { length positions.now ≤ 500 }
    ensures { IfOk result
        (λ lists. AreLists (length positions.now) (given_remedies positions.now) lists.items) }
{
    let mut lists = empty_lists(alloc, positions.len())?;
    for (number, position) in positions.iter().enumerate() {
        add_if_remedy(alloc, &mut lists, number as u32, position)?;
    }
    Ok(lists)
}

/// Adds a position to those of which it is a remedy.
fn add_if_remedy(
    alloc: Global,
    lists: &mut Vec<List<u32>>,
    number: u32,
    position: &Position,
) -> Result<(), Memory>
    requires { NoneEndsIn number lists.old.items }
    ensures { OnOk result (AreMore (λ k. remedy_of number k position.now) lists.old.items lists.new.items) }
{
    if is_obligation(position.form) {
        let names = names_of(alloc, &position.trigger)?;
        add_remedy(lists, number, names.items())?;
    }
    Ok(())
}

/// Adds a remedy to each position whose violation is named.
fn add_remedy(
    lists: &mut Vec<List<u32>>,
    number: u32,
    names: &[InternalEvent],
) -> Result<(), Memory>
    requires { NoneEndsIn number lists.old.items }
    ensures { OnOk result (AreMore (λ k. violated_by number k names.now) lists.old.items lists.new.items) }
{
    for name in names {
        add_if_violation(lists, number, *name)?;
    }
    Ok(())
}

/// Adds a remedy to the position whose violation the event is, if it is one.
fn add_if_violation(
    lists: &mut Vec<List<u32>>,
    number: u32,
    name: InternalEvent,
) -> Result<(), Memory>
    ensures { OnOk result (AreNoted number name lists.old.items lists.new.items) }
{
    if let (Kind::Violated, Target::Position(position)) = name {
        if let Some(list) = lists.get_mut(position as usize) {
            push_once(list, number)?;
        }
    }
    Ok(())
}

/// Adds the number at the end, unless it stands there.
fn push_once(list: &mut List<u32>, number: u32) -> Result<(), Memory>
    ensures { OnOk result (list.new ≡ ending_in number list.old) }
{
    match list.items().last() {
        Some(last) if *last == number => Ok(()),
        _ => list.push(number),
    }
}
