ghost use Rattle.std.specs.Prelude.{◌≡◌, ◌++◌, map, IfOk, OnOk};
ghost use Rattle.sy_events.specs.Enumerations as enumerations;
ghost use Rattle.sy_events.specs.Enumerations.{choice_numbers, choices_of};

use crate::numbers::numbers;
use std::alloc::Global;
use sy_base::{List, Memory, Text};
use sy_core::Choices;
use sy_lex::Written;
use sy_spec::TypeTree;

/// The names of constants.
fn names_of(alloc: Global, constants: &[Written]) -> Result<List<Text>, Memory>
    ensures { IfOk result (λ names. names ≡ map (λ c. c.text) constants.now) }
{
    let mut names = List::new(alloc);
    'constant: for constant in constants {
        names.push(constant.text.copy(alloc)?)?;
    }
    Ok(names)
}

/// Adds the enumeration that a type is, if it is one.
fn add_choices(alloc: Global, tree: &TypeTree, out: &mut List<Choices>) -> Result<(), Memory>
    ensures { OnOk result (out.new ≡ out.old ++ enumerations.choices_of_type tree.now) }
{
    match tree {
        TypeTree::Enumeration(_, listed) => out.push(Choices {
            names: names_of(alloc, listed.constants.items())?,
        }),
        TypeTree::Derived(_, _, _) => Ok(()),
    }
}

/// The enumerations of some types.
pub(crate) fn all_choices(alloc: Global, types: &[TypeTree]) -> Result<List<Choices>, Memory>
    ensures { IfOk result (λ choices. choices ≡ choices_of types.now) }
{
    let mut choices = List::new(alloc);
    'tree: for tree in types {
        add_choices(alloc, tree, &mut choices)?;
    }
    Ok(choices)
}

fn is_enumeration(tree: &TypeTree) -> bool
    ensures { result ≡ enumerations.is_enumeration tree.now }
{
    matches!(tree, TypeTree::Enumeration(_, _))
}

/// Which of some types are enumerations.
fn which(alloc: Global, types: &[TypeTree]) -> Result<List<bool>, Memory>
    ensures { IfOk result (λ meant. meant ≡ map enumerations.is_enumeration types.now) }
{
    let mut meant = List::new(alloc);
    'tree: for tree in types {
        meant.push(is_enumeration(tree))?;
    }
    Ok(meant)
}

/// The numbers of the enumerations among themselves, by their numbers among the types.
pub(crate) fn numbers_of_choices(
    alloc: Global,
    types: &[TypeTree],
) -> Result<List<Option<u32>>, Memory>
    ensures { IfOk result (λ found. found ≡ choice_numbers types.now) }
{
    let meant = which(alloc, types)?;
    numbers(alloc, meant.items())
}
