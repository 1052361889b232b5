ghost use Rattle.std.specs.Prelude.{◌≡◌, ◌++◌, map, OnOk};
ghost use Rattle.std.specs.List.{flat_map};
ghost use Rattle.sy_types.specs.Conditions.{other_atoms, wrong_conditions};

use std::alloc::Global;
use sy_base::{List, Memory};
use sy_domain::Failure;
use sy_spec::ContractTree;
use sy_tree::PropTree;

/// Finds the other atoms of the parts of a proposition.
#[cycle(walking)]
fn find_each(alloc: Global, parts: &[PropTree], out: &mut List<Failure>) -> Result<(), Memory>
    ensures { OnOk result (out.new ≡ out.old ++ flat_map (λ part. part) (map other_atoms parts.now)) }
{
    'part: for part in parts {
        find_atoms(alloc, part, out)?;
    }
    Ok(())
}

/// Finds the atoms that are neither constants nor comparisons.
#[cycle(walking)]
fn find_atoms(alloc: Global, tree: &PropTree, out: &mut List<Failure>) -> Result<(), Memory>
    ensures { OnOk result (out.new ≡ out.old ++ other_atoms tree.now) }
{
    match tree {
        PropTree::Const(_, _) | PropTree::Compare(_, _, _, _) => Ok(()),
        PropTree::Not(part, _) => find_atoms(alloc, part.get(), out),
        PropTree::All(parts, _) => find_each(alloc, parts.as_slice(), out),
        PropTree::Any(parts, _) => find_each(alloc, parts.as_slice(), out),
        PropTree::Happens(_, first)
        | PropTree::Before(_, _, first)
        | PropTree::After(_, _, first)
        | PropTree::Within(_, _, _, first)
        | PropTree::Occurs(_, _, _, first)
        | PropTree::Holds(_, first) => {
            out.push(Failure::at(alloc, &first.token)?)?;
            Ok(())
        }
    }
}

/// Finds the atoms of some conditions that are neither constants nor comparisons.
fn check_section(
    alloc: Global,
    conditions: &[PropTree],
    out: &mut List<Failure>,
) -> Result<(), Memory>
    ensures { OnOk result (out.new ≡ out.old ++ flat_map other_atoms conditions.now) }
{
    'condition: for condition in conditions {
        find_atoms(alloc, condition, out)?;
    }
    Ok(())
}

/// Finds the atoms of preconditions and constraints that are neither constants nor comparisons.
pub(crate) fn check_conditions(
    alloc: Global,
    contract: &ContractTree,
    out: &mut List<Failure>,
) -> Result<(), Memory>
    ensures { OnOk result (out.new ≡ out.old ++ wrong_conditions contract.now) }
{
    check_section(alloc, contract.preconditions.items(), out)?;
    check_section(alloc, contract.constraints.items(), out)
}
