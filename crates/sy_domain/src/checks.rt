ghost use Rattle.std.specs.Prelude.{◌≡◌, map, IfOk};
ghost use Rattle.sy_chains.specs.Chains.{NoCycle};
ghost use Rattle.sy_domain.specs.Chains.{base_number};
ghost use Rattle.sy_domain.specs.Checks.{names_apart, types_known, chains_end, attributes_apart, domain_checks};
ghost use Rattle.sy_domain.specs.Failures.{Answers, fault_of, refusal_of};
ghost use Rattle.sy_domain.specs.Names.{all_names};
ghost use Rattle.sy_domain.specs.Ontologies.{domain_of};

use crate::attributes::find_clashing;
use crate::chains::find_cyclic;
use crate::type_names::find_unknown;
use crate::{Names, Ontology, refusal};
use std::alloc::Global;
use sy_base::{FaultName, FileKind, Memory, Refusal, Refused};
use sy_spec::SpecTree;

/// Sees that no name is declared twice.
fn twice(alloc: Global, names: &Names, tree: &SpecTree) -> Result<Option<Refusal>, Memory>
    requires { names.now ≡ all_names tree.now }
    ensures { IfOk result (λ r. r ≡ refusal_of (names_apart tree.now)) }
{
    refusal(
        alloc,
        FileKind::Spec,
        FaultName::DuplicateName,
        names.repeated(),
    )
}

/// Sees that each name that should stand for a type does.
fn unknown(alloc: Global, names: &Names, tree: &SpecTree) -> Result<Option<Refusal>, Memory>
    requires { names.now ≡ all_names tree.now }
    ensures { IfOk result (λ r. r ≡ refusal_of (types_known tree.now)) }
{
    let unknown = find_unknown(alloc, names, tree)?;
    refusal(
        alloc,
        FileKind::Spec,
        FaultName::UnknownName,
        unknown.items(),
    )
}

/// Sees that no type's chain reaches itself.
fn cyclic(alloc: Global, names: &Names, tree: &SpecTree) -> Result<Option<Refusal>, Memory>
    requires { names.now ≡ all_names tree.now }
    ensures { IfOk result (λ r. r ≡ refusal_of (chains_end tree.now)) }
{
    let cyclic = find_cyclic(alloc, names, tree)?;
    refusal(alloc, FileKind::Spec, FaultName::CyclicIsA, cyclic.items())
}

/// Sees that no attribute has an inherited one's name, and none is given twice.
fn clashes(alloc: Global, names: &Names, tree: &SpecTree) -> Result<Option<Refusal>, Memory>
    requires names { names.now ≡ all_names tree.now }
    requires none { NoCycle (map (base_number (all_names tree.now).table) tree.now.domain.types) }
    ensures { IfOk result (λ r. r ≡ refusal_of (attributes_apart tree.now)) }
{
    let clashing = find_clashing(alloc, names, tree)?;
    refusal(
        alloc,
        FileKind::Spec,
        FaultName::DuplicateName,
        clashing.items(),
    )
}

/// The first fault of the domain part.
fn fault(alloc: Global, names: &Names, tree: &SpecTree) -> Result<Option<Refusal>, Memory>
    requires { names.now ≡ all_names tree.now }
    ensures { IfOk result (λ r. r ≡ fault_of (domain_checks tree.now)) }
{
    match twice(alloc, names, tree)? {
        Some(fault) => return Ok(Some(fault)),
        None => {}
    }
    match unknown(alloc, names, tree)? {
        Some(fault) => return Ok(Some(fault)),
        None => {}
    }
    match cyclic(alloc, names, tree)? {
        Some(fault) => return Ok(Some(fault)),
        None => {}
    }
    match clashes(alloc, names, tree)? {
        Some(fault) => return Ok(Some(fault)),
        None => {}
    }
    Ok(None)
}

/// The types of a specification.
///
/// # Errors
///
/// The first fault of its domain part, in the order of the checks: a name that is declared twice
/// (DuplicateName), a base or the type of an attribute, a parameter or a declaration that is no type
/// (UnknownName), a type whose isA chain reaches itself (CyclicIsA), and an attribute that has an
/// inherited one's name or is given twice (DuplicateName).
pub fn ontology(alloc: Global, tree: &SpecTree) -> Result<Ontology, Refused>
    ensures fault { Answers (fault_of (domain_checks tree.now)) result }
    ensures found { IfOk result (λ o. o ≡ domain_of tree.now) }
{
    let names = Names::all(alloc, tree)?;
    match fault(alloc, &names, tree)? {
        Some(fault) => Err(Refused::Refusal(fault)),
        None => Ok(Ontology::of(alloc, names, tree)?),
    }
}
