ghost use Rattle.std.specs.Prelude.{◌≡◌, ◌++◌, map, IfOk, OnOk};
ghost use Rattle.std.specs.List.{flat_map};
ghost use Rattle.sy_literal.specs.Calendar.{bad_date};
ghost use Rattle.sy_given.specs.BoundLiterals as literals;
ghost use Rattle.sy_given.specs.BoundLiterals.{bad_dates, great_number, great_numbers};
ghost use Rattle.sy_given.specs.Givens.{values_in};

use std::alloc::Global;
use sy_base::{List, Memory, TimeUnit};
use sy_binding::{BindTree, BoundTree, FieldTree, GivenTree, ValueTree};
use sy_domain::{Failure, fail_unless};
use sy_lex::Written;
use sy_literal::{date, number};

/// A check of each value of a binding by itself.
trait ValueCheck {
    ghost use Rattle.std.specs.Prelude.{List as Several, ◌≡◌, ◌++◌, OnOk};
    ghost use Rattle.sy_binding.specs.declared.tree.ValueTree.{ValueTree as AValue};
    ghost use Rattle.sy_domain.specs.declared.failure.Failure.{Failure as AFailure};

    /// Where a value fails.
    ghost fails: { Self → AValue → Several AFailure };

    fn check(&self, value: &ValueTree, out: &mut List<Failure>) -> Result<(), Memory>
        ensures { OnOk result (out.new ≡ out.old ++ fails self.now value.now) };
}

/// Finds the dates that have a fault in the unit.
#[derive(Drop)]
struct BadDates {
    alloc: Global,
    unit: TimeUnit,
}

impl BadDates {
    fn check_date(&self, token: &Written, out: &mut List<Failure>) -> Result<(), Memory>
        ensures { OnOk result (out.new ≡ out.old ++ bad_date self.now.unit token.now) }
    {
        let well = date(self.unit, &token.text).is_some();
        fail_unless(self.alloc, well, token, out)
    }
}

impl ValueCheck for BadDates {
    ghost use Rattle.sy_given.specs.BoundLiterals.{bad_date_in};

    ghost fails = { λ c. bad_date_in c.unit };

    fn check(&self, value: &ValueTree, out: &mut List<Failure>) -> Result<(), Memory> {
        match value {
            ValueTree::Date(token) => self.check_date(token, out),
            _ => Ok(()),
        }
    }
}

/// Finds the numbers that are above 10^15.
#[derive(Drop)]
struct GreatNumbers {
    alloc: Global,
}

impl ValueCheck for GreatNumbers {
    ghost use Rattle.sy_given.specs.BoundLiterals.{great_number_in};

    ghost fails = { λ _. great_number_in };

    fn check(&self, value: &ValueTree, out: &mut List<Failure>) -> Result<(), Memory> {
        match value {
            ValueTree::Number(token) | ValueTree::Negative(_, token) => {
                fail_unless(self.alloc, number(&token.text).is_some(), token, out)
            }
            _ => Ok(()),
        }
    }
}

/// Checks the values within braces.
fn check_fields<C: ValueCheck>(
    check: &C,
    fields: &[FieldTree],
    out: &mut List<Failure>,
) -> Result<(), Memory>
    ensures { OnOk result (out.new ≡ out.old
        ++ flat_map (C.fails check.now) (map (λ f. f.value) fields.now)) }
{
    'field: for field in fields {
        check.check(&field.value, out)?;
    }
    Ok(())
}

/// Checks what a parameter is bound to.
fn check_given<C: ValueCheck>(
    check: &C,
    given: &GivenTree,
    out: &mut List<Failure>,
) -> Result<(), Memory>
    ensures { OnOk result (out.new ≡ out.old ++ flat_map (C.fails check.now) (values_in given.now)) }
{
    match &given.bound {
        BoundTree::Value(value) => check.check(value, out),
        BoundTree::Attributes(_, fields) => check_fields(check, fields.items(), out),
    }
}

/// Checks what the parameters are bound to.
fn check_each<C: ValueCheck>(
    check: &C,
    givens: &[GivenTree],
    out: &mut List<Failure>,
) -> Result<(), Memory>
    ensures { OnOk result (out.new ≡ out.old
        ++ flat_map (C.fails check.now) (flat_map values_in givens.now)) }
{
    'given: for given in givens {
        check_given(check, given, out)?;
    }
    Ok(())
}

/// The dates that have a fault in the unit.
pub(crate) fn find_bad_dates(
    alloc: Global,
    unit: TimeUnit,
    tree: &BindTree,
) -> Result<List<Failure>, Memory>
    ensures { IfOk result (λ found. found ≡ bad_dates unit tree.now) }
{
    let dates = BadDates { alloc, unit };
    let mut out = List::new(alloc);
    dates.check_date(&tree.start, &mut out)?;
    check_each(&dates, tree.parameters.items(), &mut out)?;
    Ok(out)
}

/// The numbers that are above 10^15.
pub(crate) fn find_great_numbers(alloc: Global, tree: &BindTree) -> Result<List<Failure>, Memory>
    ensures { IfOk result (λ found. found ≡ great_numbers tree.now) }
{
    let mut out = List::new(alloc);
    check_each(&GreatNumbers { alloc }, tree.parameters.items(), &mut out)?;
    Ok(out)
}
