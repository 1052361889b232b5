ghost use Rattle.std.specs.Prelude.{◌≡◌, ◌++◌, OnOk};
ghost use Rattle.sy_types.specs.Comparisons as comparisons;

use crate::terms::{check_rhs, check_term, fail_unless_at};
use std::alloc::Global;
use sy_base::{List, Memory};
use sy_domain::{Failure, Sort, fail_unless};
use sy_lex::Written;
use sy_scope::{Scope, rhs_sort, term_sort};
use sy_tree::{CmpTree, GuardTree, RhsTree, TermTree};
use sy_words::Cmp;

pub(crate) fn is_same_sort(a: Sort, b: Sort) -> bool
    ensures { result ≡ comparisons.is_same_sort a b }
{
    match (a, b) {
        (Sort::Number, Sort::Number) => true,
        (Sort::Text, Sort::Text) => true,
        (Sort::Boolean, Sort::Boolean) => true,
        (Sort::Date, Sort::Date) => true,
        (Sort::Declared(m), Sort::Declared(n)) => m == n,
        _ => false,
    }
}

/// Whether a sign compares values of a sort.
fn compares(scope: &Scope, cmp: Cmp, sort: Sort) -> bool
    ensures { result ≡ comparisons.compares scope.now cmp sort }
{
    match cmp {
        Cmp::Eq | Cmp::Ne => scope.is_value(sort),
        _ => matches!(sort, Sort::Number | Sort::Date),
    }
}

/// Whether a sign can stand between things of two sorts.
fn are_comparable(scope: &Scope, cmp: Cmp, left: Option<Sort>, right: Option<Sort>) -> bool
    ensures { result ≡ comparisons.are_comparable scope.now cmp left right }
{
    match (left, right) {
        (Some(left), Some(right)) => is_same_sort(left, right) && compares(scope, cmp, left),
        _ => false,
    }
}

/// Finds what is wrong with a comparison and the terms in it.
pub(crate) fn check_comparison(
    alloc: Global,
    scope: &Scope,
    visible: usize,
    left: &TermTree,
    cmp: &CmpTree,
    right: &RhsTree,
    out: &mut List<Failure>,
) -> Result<(), Memory>
    ensures { OnOk result (out.new ≡ out.old
        ++ comparisons.wrong_comparison scope.now visible left.now cmp.now right.now) }
{
    check_term(alloc, scope, visible, left, out)?;
    check_rhs(alloc, scope, visible, right, out)?;
    let left_sort = term_sort(scope, visible, left);
    let right_sort = rhs_sort(scope, visible, right);
    let well = are_comparable(scope, cmp.cmp, left_sort, right_sort);
    fail_unless_at(alloc, well, &left.first.first, out)
}

/// The sort of the attribute that a guard of the event with that name speaks of.
fn guard_sort(scope: &Scope, event: &Written, guard: &GuardTree) -> Option<Sort>
    ensures { result ≡ comparisons.guard_sort scope.now event.now guard.now }
{
    match scope.event(&event.text) {
        Some(sort) => scope.env(sort, &guard.name.text),
        None => None,
    }
}

/// Finds what is wrong with a guard of the event with that name, and the terms in it.
pub(crate) fn check_guard(
    alloc: Global,
    scope: &Scope,
    visible: usize,
    event: &Written,
    guard: &GuardTree,
    out: &mut List<Failure>,
) -> Result<(), Memory>
    ensures { OnOk result (out.new ≡ out.old
        ++ comparisons.wrong_guard scope.now visible event.now guard.now) }
{
    check_rhs(alloc, scope, visible, &guard.value, out)?;
    let left = guard_sort(scope, event, guard);
    let right = rhs_sort(scope, visible, &guard.value);
    let well = are_comparable(scope, guard.cmp.cmp, left, right);
    fail_unless(alloc, well, &guard.name, out)
}
