ghost use Rattle.std.specs.Prelude.{◌≡◌, IfOk};
ghost use Rattle.sy_domain.specs.Failures.{fault_of, refusal_of};
ghost use Rattle.sy_given.specs.Checks.{all_bound, binding_checks, dates_fit, fields_apart, names_known, numbers_fit, parameters_apart, values_fit};

use crate::extra::find_extra;
use crate::literals::{find_bad_dates, find_great_numbers};
use crate::missing::first_missing;
use crate::repeats::{find_repeated_fields, find_repeated_names};
use crate::wrong::find_wrong;
use std::alloc::Global;
use sy_base::{FaultName, FileKind, Memory, Refusal};
use sy_binding::BindTree;
use sy_domain::refusal;
use sy_scope::Scope;
use sy_spec::SpecTree;

/// Sees that no name is bound twice.
fn twice(alloc: Global, tree: &BindTree) -> Result<Option<Refusal>, Memory>
    ensures { IfOk result (λ r. r ≡ refusal_of (parameters_apart tree.now)) }
{
    let repeated = find_repeated_names(alloc, tree)?;
    refusal(
        alloc,
        FileKind::Bind,
        FaultName::DuplicateParam,
        repeated.items(),
    )
}

/// Sees that no name is bound twice within one pair of braces.
fn twice_within(alloc: Global, tree: &BindTree) -> Result<Option<Refusal>, Memory>
    ensures { IfOk result (λ r. r ≡ refusal_of (fields_apart tree.now)) }
{
    let repeated = find_repeated_fields(alloc, tree)?;
    refusal(
        alloc,
        FileKind::Bind,
        FaultName::DuplicateParam,
        repeated.items(),
    )
}

/// Sees that each bound name is a parameter or an attribute of one.
fn unknown(alloc: Global, scope: &Scope, tree: &BindTree) -> Result<Option<Refusal>, Memory>
    ensures { IfOk result (λ r. r ≡ refusal_of (names_known scope.now tree.now)) }
{
    let extra = find_extra(alloc, scope, tree)?;
    refusal(alloc, FileKind::Bind, FaultName::ExtraParam, extra.items())
}

/// Sees that each parameter is bound, and each attribute of one.
fn unbound(
    alloc: Global,
    scope: &Scope,
    spec: &SpecTree,
    tree: &BindTree,
) -> Result<Option<Refusal>, Memory>
    ensures { IfOk result (λ r. r ≡ refusal_of (all_bound scope.now spec.now tree.now)) }
{
    match first_missing(alloc, scope, spec, tree)? {
        Some(failure) => Ok(Some(Refusal {
            file: FileKind::Bind,
            place: failure.place,
            name: FaultName::MissingParam,
            words: failure.words,
        })),
        None => Ok(None),
    }
}

/// Sees that each value is of its type.
fn unfit(alloc: Global, scope: &Scope, tree: &BindTree) -> Result<Option<Refusal>, Memory>
    ensures { IfOk result (λ r. r ≡ refusal_of (values_fit scope.now tree.now)) }
{
    let wrong = find_wrong(alloc, scope, tree)?;
    refusal(
        alloc,
        FileKind::Bind,
        FaultName::WrongParamType,
        wrong.items(),
    )
}

/// Sees that the unit has each date.
fn undated(alloc: Global, spec: &SpecTree, tree: &BindTree) -> Result<Option<Refusal>, Memory>
    ensures { IfOk result (λ r. r ≡ refusal_of (dates_fit spec.now tree.now)) }
{
    let bad = find_bad_dates(alloc, spec.contract.unit.unit, tree)?;
    refusal(alloc, FileKind::Bind, FaultName::BadDate, bad.items())
}

/// Sees that no number is above 10^15.
fn too_great(alloc: Global, tree: &BindTree) -> Result<Option<Refusal>, Memory>
    ensures { IfOk result (λ r. r ≡ refusal_of (numbers_fit tree.now)) }
{
    let great = find_great_numbers(alloc, tree)?;
    refusal(
        alloc,
        FileKind::Bind,
        FaultName::NumberOutOfRange,
        great.items(),
    )
}

/// The fault of a binding, in the order of the checks: a name that is bound twice (DuplicateParam,
/// the parameters' names before those within braces), a bound name that is no parameter or no
/// attribute of it (ExtraParam), a parameter or an attribute that isn't bound (MissingParam), a
/// value that isn't of its type (WrongParamType), a date that has a fault in the unit of the
/// contract (BadDate) and a number above 10^15 (NumberOutOfRange).
pub fn binding_fault(
    alloc: Global,
    scope: &Scope,
    spec: &SpecTree,
    tree: &BindTree,
) -> Result<Option<Refusal>, Memory>
    ensures { IfOk result (λ r. r ≡ fault_of (binding_checks scope.now spec.now tree.now)) }
{
    match twice(alloc, tree)? {
        Some(fault) => return Ok(Some(fault)),
        None => {}
    }
    match twice_within(alloc, tree)? {
        Some(fault) => return Ok(Some(fault)),
        None => {}
    }
    match unknown(alloc, scope, tree)? {
        Some(fault) => return Ok(Some(fault)),
        None => {}
    }
    match unbound(alloc, scope, spec, tree)? {
        Some(fault) => return Ok(Some(fault)),
        None => {}
    }
    match unfit(alloc, scope, tree)? {
        Some(fault) => return Ok(Some(fault)),
        None => {}
    }
    match undated(alloc, spec, tree)? {
        Some(fault) => return Ok(Some(fault)),
        None => {}
    }
    match too_great(alloc, tree)? {
        Some(fault) => return Ok(Some(fault)),
        None => {}
    }
    Ok(None)
}
