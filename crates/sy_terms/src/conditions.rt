ghost use Rattle.std.specs.Prelude.{◌≡◌, map, IfOk};
ghost use Rattle.std.specs.List.{list_all, list_any};
ghost use Rattle.sy_terms.specs.Conditions as conditions;

use crate::comparisons::items_compare;
use crate::{Environment, item_of_rhs, item_of_term};
use std::alloc::Global;
use sy_base::Memory;
use sy_scope::Scope;
use sy_tree::{CmpTree, PropTree, RhsTree, TermTree};

/// Whether a comparison is true. One of terms without values, or of things, is false.
pub fn comparison_holds(
    alloc: Global,
    scope: &Scope,
    environment: &Environment,
    left: &TermTree,
    cmp: &CmpTree,
    right: &RhsTree,
) -> Result<bool, Memory>
    ensures { IfOk result (λ truth. truth
        ≡ conditions.comparison_holds scope.now environment.now left.now cmp.now right.now) }
{
    let left = item_of_term(alloc, scope, environment, left)?;
    let right = item_of_rhs(alloc, scope, environment, right)?;
    Ok(items_compare(cmp.cmp, &left, &right))
}

/// Whether all conditions are true.
#[cycle(holding)]
fn all_hold(
    alloc: Global,
    scope: &Scope,
    environment: &Environment,
    parts: &[PropTree],
) -> Result<bool, Memory>
    ensures { IfOk result (λ truth. truth
        ≡ list_all (λ part. part) (map (conditions.holds scope.now environment.now) parts.now)) }
{
    'part: for part in parts {
        if !holds(alloc, scope, environment, part)? {
            return Ok(false);
        }
    }
    Ok(true)
}

/// Whether one of some conditions is true.
#[cycle(holding)]
fn any_holds(
    alloc: Global,
    scope: &Scope,
    environment: &Environment,
    parts: &[PropTree],
) -> Result<bool, Memory>
    ensures { IfOk result (λ truth. truth
        ≡ list_any (λ part. part) (map (conditions.holds scope.now environment.now) parts.now)) }
{
    'part: for part in parts {
        if holds(alloc, scope, environment, part)? {
            return Ok(true);
        }
    }
    Ok(false)
}

/// Whether a condition is true. One that speaks of events or states isn't.
#[cycle(holding)]
pub(crate) fn holds(
    alloc: Global,
    scope: &Scope,
    environment: &Environment,
    condition: &PropTree,
) -> Result<bool, Memory>
    ensures { IfOk result (λ truth. truth
        ≡ conditions.holds scope.now environment.now condition.now) }
{
    match condition {
        PropTree::Const(truth, _) => Ok(*truth),
        PropTree::Not(part, _) => {
            let truth = holds(alloc, scope, environment, part.get())?;
            Ok(!truth)
        }
        PropTree::All(parts, _) => all_hold(alloc, scope, environment, parts.as_slice()),
        PropTree::Any(parts, _) => any_holds(alloc, scope, environment, parts.as_slice()),
        PropTree::Compare(left, cmp, right, _) => {
            comparison_holds(alloc, scope, environment, left, cmp, right)
        }
        _ => Ok(false),
    }
}
