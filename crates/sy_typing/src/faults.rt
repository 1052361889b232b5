ghost use Rattle.std.specs.Prelude.{◌≡◌, IfOk};
ghost use Rattle.sy_domain.specs.Failures.{refusal_of};
ghost use Rattle.sy_literal.specs.Calendar.{calendar_refusal};
ghost use Rattle.sy_literal.specs.Consequents.{consequents_without_situations};
ghost use Rattle.sy_literal.specs.Limits.{limits_kept};
ghost use Rattle.sy_literal.specs.Numbers.{numbers_in_range};
ghost use Rattle.sy_names.specs.UnknownNames.{names_known};
ghost use Rattle.sy_scope.specs.Scopes.{things_of};
ghost use Rattle.sy_types.specs.WrongTypes.{types_right};
ghost use Rattle.sy_typing.specs.Plans.{first_refusal, text_refusals};

use std::alloc::Global;
use sy_base::{FaultName, FileKind, Memory, Refusal};
use sy_domain::refusal;
use sy_literal::{calendar_fault, limits_passed, numbers_out_of_range, situations_in_consequents};
use sy_names::unknown_names;
use sy_scope::Scope;
use sy_spec::SpecTree;
use sy_types::wrong_types;

/// Sees that each name that is used is declared for its place.
fn names(alloc: Global, scope: &Scope, tree: &SpecTree) -> Result<Option<Refusal>, Memory>
    requires { scope.now ≡ things_of tree.now }
    ensures { IfOk result (λ r. r ≡ refusal_of (names_known tree.now)) }
{
    let found = unknown_names(alloc, scope, tree)?;
    refusal(alloc, FileKind::Spec, FaultName::UnknownName, found.items())
}

/// Sees that no phrase breaks the rules of types.
fn types(alloc: Global, scope: &Scope, tree: &SpecTree) -> Result<Option<Refusal>, Memory>
    requires { scope.now ≡ things_of tree.now }
    ensures { IfOk result (λ r. r ≡ refusal_of (types_right tree.now)) }
{
    let found = wrong_types(alloc, scope, tree)?;
    refusal(alloc, FileKind::Spec, FaultName::WrongType, found.items())
}

/// Sees that no number is too great.
fn numbers(alloc: Global, tree: &SpecTree) -> Result<Option<Refusal>, Memory>
    ensures { IfOk result (λ r. r ≡ refusal_of (numbers_in_range tree.now)) }
{
    let found = numbers_out_of_range(alloc, tree)?;
    refusal(
        alloc,
        FileKind::Spec,
        FaultName::NumberOutOfRange,
        found.items(),
    )
}

/// Sees that no consequent has `holds`.
fn consequents(alloc: Global, tree: &SpecTree) -> Result<Option<Refusal>, Memory>
    ensures { IfOk result (λ r. r ≡ refusal_of (consequents_without_situations tree.now)) }
{
    let found = situations_in_consequents(alloc, tree)?;
    refusal(
        alloc,
        FileKind::Spec,
        FaultName::SituationInConsequent,
        found.items(),
    )
}

/// Sees that there are not too many positions, events and atoms.
fn limits(alloc: Global, scope: &Scope, tree: &SpecTree) -> Result<Option<Refusal>, Memory>
    requires { scope.now ≡ things_of tree.now }
    ensures { IfOk result (λ r. r ≡ refusal_of (limits_kept tree.now)) }
{
    let found = limits_passed(alloc, scope, tree)?;
    refusal(alloc, FileKind::Spec, FaultName::TooMany, found.items())
}

/// The first fault of the checks that come behind those of the domain part, but for that of the
/// order of evaluation.
pub(crate) fn text_fault(
    alloc: Global,
    scope: &Scope,
    tree: &SpecTree,
) -> Result<Option<Refusal>, Memory>
    requires { scope.now ≡ things_of tree.now }
    ensures { IfOk result (λ r. r ≡ first_refusal (text_refusals tree.now)) }
{
    match names(alloc, scope, tree)? {
        Some(fault) => return Ok(Some(fault)),
        None => {}
    }
    match types(alloc, scope, tree)? {
        Some(fault) => return Ok(Some(fault)),
        None => {}
    }
    match numbers(alloc, tree)? {
        Some(fault) => return Ok(Some(fault)),
        None => {}
    }
    match calendar_fault(alloc, tree)? {
        Some(fault) => return Ok(Some(fault)),
        None => {}
    }
    match consequents(alloc, tree)? {
        Some(fault) => return Ok(Some(fault)),
        None => {}
    }
    match limits(alloc, scope, tree)? {
        Some(fault) => return Ok(Some(fault)),
        None => {}
    }
    Ok(None)
}
