ghost use Rattle.std.specs.Prelude.{◌≡◌, ◌++◌, OnOk};
ghost use Rattle.std.specs.List.{flat_map, list_all};
ghost use Rattle.sy_domain.specs.Failures.{unless};
ghost use Rattle.sy_scope.specs.Tokens.{single_token};
ghost use Rattle.sy_types.specs.Terms as terms;

use std::alloc::Global;
use sy_base::{List, Memory};
use sy_domain::{Failure, Sort};
use sy_scope::{Scope, factor_sort, fail_at_single, single_sort, summand};
use sy_tree::{FactorTree, RhsTree, SingleTree, SumTree, TermTree};

pub(crate) fn is_number(sort: Option<Sort>) -> bool
    ensures { result ≡ terms.is_number sort }
{
    matches!(sort, Some(Sort::Number))
}

/// Whether each of some parts of a product is a number.
fn are_numbers(scope: &Scope, visible: usize, parts: &[SingleTree]) -> bool
    ensures { result ≡ list_all (terms.is_number_part scope.now visible) parts.now }
{
    parts
        .iter()
        .all(|part| is_number(single_sort(scope, visible, part)))
}

/// Whether each of some further parts of a sum is a number.
fn are_number_summands(scope: &Scope, visible: usize, sums: &[SumTree]) -> bool
    ensures { result ≡ list_all (terms.is_number_summand scope.now visible) sums.now }
{
    sums.iter()
        .all(|sum| is_number(factor_sort(scope, visible, summand(sum))))
}

/// Whether a product of several parts multiplies numbers.
fn multiplies_numbers(
    scope: &Scope,
    visible: usize,
    first: &SingleTree,
    others: &[SingleTree],
) -> bool
    ensures { result ≡ terms.multiplies_numbers scope.now visible first.now others.now }
{
    match others {
        [] => true,
        [_, ..] => {
            is_number(single_sort(scope, visible, first)) && are_numbers(scope, visible, others)
        }
    }
}

/// Whether a sum of several parts adds numbers.
fn adds_numbers(scope: &Scope, visible: usize, first: &FactorTree, others: &[SumTree]) -> bool
    ensures { result ≡ terms.adds_numbers scope.now visible first.now others.now }
{
    match others {
        [] => true,
        [_, ..] => {
            is_number(factor_sort(scope, visible, first))
                && are_number_summands(scope, visible, others)
        }
    }
}

/// Puts the failure at the first token of a part of a product behind the others, unless all is
/// well.
pub(crate) fn fail_unless_at(
    alloc: Global,
    well: bool,
    single: &SingleTree,
    out: &mut List<Failure>,
) -> Result<(), Memory>
    ensures { OnOk result (out.new ≡ out.old ++ unless well (single_token single.now)) }
{
    if !well {
        out.push(fail_at_single(alloc, single)?)?;
    }
    Ok(())
}

fn check_product(
    alloc: Global,
    scope: &Scope,
    visible: usize,
    factor: &FactorTree,
    out: &mut List<Failure>,
) -> Result<(), Memory>
    ensures { OnOk result (out.new ≡ out.old ++ terms.wrong_product scope.now visible factor.now) }
{
    let well = multiplies_numbers(scope, visible, &factor.first, factor.others.items());
    fail_unless_at(alloc, well, &factor.first, out)
}

fn check_summands(
    alloc: Global,
    scope: &Scope,
    visible: usize,
    sums: &[SumTree],
    out: &mut List<Failure>,
) -> Result<(), Memory>
    ensures { OnOk result (out.new ≡ out.old
        ++ flat_map (terms.wrong_summand scope.now visible) sums.now) }
{
    'sum: for sum in sums {
        check_product(alloc, scope, visible, summand(sum), out)?;
    }
    Ok(())
}

/// Finds the products and sums of a term that aren't of numbers.
pub(crate) fn check_term(
    alloc: Global,
    scope: &Scope,
    visible: usize,
    term: &TermTree,
    out: &mut List<Failure>,
) -> Result<(), Memory>
    ensures { OnOk result (out.new ≡ out.old ++ terms.wrong_term scope.now visible term.now) }
{
    check_product(alloc, scope, visible, &term.first, out)?;
    check_summands(alloc, scope, visible, term.others.items(), out)?;
    let well = adds_numbers(scope, visible, &term.first, term.others.items());
    fail_unless_at(alloc, well, &term.first.first, out)
}

/// The same, where `true` or `false` may stand too.
pub(crate) fn check_rhs(
    alloc: Global,
    scope: &Scope,
    visible: usize,
    rhs: &RhsTree,
    out: &mut List<Failure>,
) -> Result<(), Memory>
    ensures { OnOk result (out.new ≡ out.old ++ terms.wrong_rhs scope.now visible rhs.now) }
{
    match rhs {
        RhsTree::Term(term) => check_term(alloc, scope, visible, term, out),
        RhsTree::Const(_, _) => Ok(()),
    }
}
