ghost use Rattle.std.specs.Prelude.{◌≡◌, fold, IfOk};
ghost use Rattle.sy_terms.specs.Terms as terms;
ghost use Rattle.sy_terms.specs.Terms.{factor_item, rhs_item, single_item, term_item};

use crate::numbers::{difference_of, product_of, sum_of, written_number};
use crate::{Environment, Item, item_of_path};
use std::alloc::Global;
use sy_base::Memory;
use sy_given::Known;
use sy_literal::{content, date};
use sy_scope::{Scope, summand};
use sy_tree::{FactorTree, RhsTree, SingleTree, SumTree, TermTree};

/// The number that an item is.
pub(crate) fn number_of(item: &Option<Item>) -> Option<i64>
    ensures { result ≡ terms.number_of item.now }
{
    match item {
        Some(Item::Value(Known::Number(number))) => Some(*number),
        _ => None,
    }
}

/// A number as an item.
fn number_item(number: Option<i64>) -> Option<Item>
    ensures { result ≡ terms.number_item number }
{
    number.map(|number| Item::Value(Known::Number(number)))
}

/// What a part of a product stands for.
fn item_of_single(
    alloc: Global,
    scope: &Scope,
    environment: &Environment,
    single: &SingleTree,
) -> Result<Option<Item>, Memory>
    ensures { IfOk result (λ item. item ≡ single_item scope.now environment.now single.now) }
{
    match single {
        SingleTree::Number(token) => Ok(number_item(written_number(token))),
        SingleTree::Negative(_, token) => {
            let number = written_number(token);
            Ok(number_item(number.map(|number| -number)))
        }
        SingleTree::Str(token) => {
            let text = content(alloc, &token.text)?;
            Ok(Some(Item::Value(Known::Text(text))))
        }
        SingleTree::Date(token) => {
            let point = date(environment.unit(), &token.text);
            Ok(point.map(|point| Item::Value(Known::Date(point))))
        }
        SingleTree::Path(path) => item_of_path(alloc, scope, environment, path),
    }
}

/// The number that a part of a product stands for.
fn number_of_single(
    alloc: Global,
    scope: &Scope,
    environment: &Environment,
    single: &SingleTree,
) -> Result<Option<i64>, Memory>
    ensures { IfOk result (λ number. number
        ≡ terms.number_of (single_item scope.now environment.now single.now)) }
{
    let item = item_of_single(alloc, scope, environment, single)?;
    Ok(number_of(&item))
}

/// The number of a product, from left to right.
fn product(
    alloc: Global,
    scope: &Scope,
    environment: &Environment,
    factor: &FactorTree,
) -> Result<Option<i64>, Memory>
    ensures { IfOk result (λ number. number ≡ terms.product scope.now environment.now factor.now) }
{
    let mut number = number_of_single(alloc, scope, environment, &factor.first)?;
    'single: for single in factor.others.items() {
        let other = number_of_single(alloc, scope, environment, single)?;
        number = product_of(number, other);
    }
    Ok(number)
}

/// What a product stands for.
fn item_of_factor(
    alloc: Global,
    scope: &Scope,
    environment: &Environment,
    factor: &FactorTree,
) -> Result<Option<Item>, Memory>
    ensures { IfOk result (λ item. item ≡ factor_item scope.now environment.now factor.now) }
{
    match factor.others.items() {
        [] => item_of_single(alloc, scope, environment, &factor.first),
        [_, ..] => {
            let number = product(alloc, scope, environment, factor)?;
            Ok(number_item(number))
        }
    }
}

/// A number, with one more product added to it or taken from it.
fn plus(
    alloc: Global,
    scope: &Scope,
    environment: &Environment,
    number: Option<i64>,
    sum: &SumTree,
) -> Result<Option<i64>, Memory>
    ensures { IfOk result (λ total. total ≡ terms.plus scope.now environment.now number sum.now) }
{
    let other = product(alloc, scope, environment, summand(sum))?;
    Ok(match sum {
        SumTree::Plus(_) => sum_of(number, other),
        SumTree::Minus(_) => difference_of(number, other),
    })
}

/// The number of a sum, from left to right.
fn total(
    alloc: Global,
    scope: &Scope,
    environment: &Environment,
    term: &TermTree,
) -> Result<Option<i64>, Memory>
    ensures { IfOk result (λ number. number ≡ terms.total scope.now environment.now term.now) }
{
    let mut number = product(alloc, scope, environment, &term.first)?;
    'sum: for sum in term.others.items() {
        number = plus(alloc, scope, environment, number, sum)?;
    }
    Ok(number)
}

/// What a term stands for: None where it has no value, as a number that leaves -10^15 to 10^15 at
/// any step of its computation, from left to right.
pub fn item_of_term(
    alloc: Global,
    scope: &Scope,
    environment: &Environment,
    term: &TermTree,
) -> Result<Option<Item>, Memory>
    ensures { IfOk result (λ item. item ≡ term_item scope.now environment.now term.now) }
{
    match term.others.items() {
        [] => item_of_factor(alloc, scope, environment, &term.first),
        [_, ..] => {
            let number = total(alloc, scope, environment, term)?;
            Ok(number_item(number))
        }
    }
}

/// What the right side of a comparison stands for, or what an attribute is given: None where it has
/// no value.
pub fn item_of_rhs(
    alloc: Global,
    scope: &Scope,
    environment: &Environment,
    rhs: &RhsTree,
) -> Result<Option<Item>, Memory>
    ensures { IfOk result (λ item. item ≡ rhs_item scope.now environment.now rhs.now) }
{
    match rhs {
        RhsTree::Term(term) => item_of_term(alloc, scope, environment, term),
        RhsTree::Const(truth, _) => Ok(Some(Item::Value(Known::Boolean(*truth)))),
    }
}
