ghost use Rattle.std.specs.Prelude.{◌≡◌, IfOk};
ghost use Rattle.std.specs.List.{flat_map};
ghost use Rattle.sy_domain.specs.Failures.{at, fault_of, refusal_of};
ghost use Rattle.sy_terms.specs.Checks as checks;
ghost use Rattle.sy_terms.specs.Checks.{binding_values_checks, none_false, proposition_token};

use crate::Environment;
use crate::conditions::holds;
use crate::ranges::find_out_of_range;
use std::alloc::Global;
use sy_base::{FaultName, FileKind, List, Memory, Refusal};
use sy_domain::{Failure, refusal};
use sy_scope::{Scope, fail_at};
use sy_spec::SpecTree;
use sy_tree::{First, PropTree};

/// How a proposition begins.
fn first_of(tree: &PropTree) -> &First
    ensures { result.now ≡ checks.first_of tree.now }
{
    match tree {
        PropTree::Const(_, first)
        | PropTree::Not(_, first)
        | PropTree::All(_, first)
        | PropTree::Any(_, first)
        | PropTree::Compare(_, _, _, first)
        | PropTree::Happens(_, first)
        | PropTree::Before(_, _, first)
        | PropTree::After(_, _, first)
        | PropTree::Within(_, _, _, first)
        | PropTree::Occurs(_, _, _, first)
        | PropTree::Holds(_, first) => first,
    }
}

/// The failure at the first token of a proposition, a bracket round the whole included.
fn fail_at_proposition(alloc: Global, tree: &PropTree) -> Result<Failure, Memory>
    ensures { IfOk result (λ failure. failure ≡ at (proposition_token tree.now)) }
{
    let first = first_of(tree);
    match first.bracket {
        Some(place) => fail_at(alloc, b"(", place),
        None => Failure::at(alloc, &first.token),
    }
}

/// Finds the conditions that are false.
fn find_false(
    alloc: Global,
    scope: &Scope,
    environment: &Environment,
    conditions: &[PropTree],
) -> Result<List<Failure>, Memory>
    ensures { IfOk result (λ found. found
        ≡ flat_map (checks.false_condition scope.now environment.now) conditions.now) }
{
    let mut out = List::new(alloc);
    'condition: for condition in conditions {
        if !holds(alloc, scope, environment, condition)? {
            out.push(fail_at_proposition(alloc, condition)?)?;
        }
    }
    Ok(out)
}

/// Sees that none of some conditions is false.
fn false_condition(
    alloc: Global,
    name: FaultName,
    scope: &Scope,
    environment: &Environment,
    conditions: &[PropTree],
) -> Result<Option<Refusal>, Memory>
    ensures { IfOk result (λ r. r
        ≡ refusal_of (none_false name scope.now environment.now conditions.now)) }
{
    let found = find_false(alloc, scope, environment, conditions)?;
    refusal(alloc, FileKind::Spec, name, found.items())
}

/// The fault of a specification under a binding, in the order of the checks: a term that lies
/// outside its range (NumberOutOfRange), a precondition that is false (PreconditionFalse) and a
/// constraint that is false (ConstraintFalse), each at its first token.
pub fn values_fault(
    alloc: Global,
    scope: &Scope,
    environment: &Environment,
    spec: &SpecTree,
) -> Result<Option<Refusal>, Memory>
    ensures { IfOk result (λ r. r
        ≡ fault_of (binding_values_checks scope.now environment.now spec.now)) }
{
    let name = FaultName::NumberOutOfRange;
    let found = find_out_of_range(alloc, scope, environment, spec)?;
    match refusal(alloc, FileKind::Spec, name, found.items())? {
        Some(fault) => return Ok(Some(fault)),
        None => {}
    }
    let name = FaultName::PreconditionFalse;
    let preconditions = spec.contract.preconditions.items();
    match false_condition(alloc, name, scope, environment, preconditions)? {
        Some(fault) => return Ok(Some(fault)),
        None => {}
    }
    let name = FaultName::ConstraintFalse;
    let constraints = spec.contract.constraints.items();
    match false_condition(alloc, name, scope, environment, constraints)? {
        Some(fault) => return Ok(Some(fault)),
        None => {}
    }
    Ok(None)
}
