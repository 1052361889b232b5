ghost use Rattle.std.specs.Prelude.{◌≡◌, ◌++◌, codes, None, IfOk, IfSome, option_copied};
ghost use Rattle.std.specs.List.{flat_map};
ghost use Rattle.sy_domain.specs.Failures as failures;
ghost use Rattle.sy_given.specs.BoundNames as names;
ghost use Rattle.sy_given.specs.BoundNames.{attribute_names, missing, missing_names};
ghost use Rattle.sy_given.specs.Givens.{gives_field, given_to};

use crate::named::{first_named, first_places};
use crate::repeats::fields_of;
use std::alloc::Global;
use sy_base::{List, Memory, Text};
use sy_binding::{BindTree, FieldTree, GivenTree};
use sy_domain::{Failure, Sort};
use sy_scope::Scope;
use sy_spec::{ParamTree, SpecTree};

/// The names of the attributes of a parameter, the inherited ones first.
fn attributes_of(alloc: Global, scope: &Scope, parameter: &ParamTree) -> Result<List<Text>, Memory>
    ensures { IfOk result (λ attributes. attributes ≡ attribute_names scope.now parameter.now) }
{
    let ontology = scope.ontology();
    match ontology.sort(&parameter.type_name.text) {
        Sort::Declared(number) => ontology.member_names(alloc, number),
        _ => Ok(List::new(alloc)),
    }
}

/// The failure that a parameter isn't bound.
fn absent(alloc: Global, parameter: &Text) -> Result<Failure, Memory>
    ensures { IfOk result (λ failure. failure ≡ names.absent parameter.now) }
{
    Ok(Failure {
        place: None,
        words: parameter.copy(alloc)?,
    })
}

/// The failure that an attribute of a parameter isn't bound.
fn absent_attribute(alloc: Global, parameter: &Text, attribute: &Text) -> Result<Failure, Memory>
    ensures { IfOk result (λ failure. failure
        ≡ names.absent (parameter.now ++ codes "." ++ attribute.now)) }
{
    let mut words = Vec::from_slice(alloc, parameter.bytes())?;
    words.push(b'.')?;
    words.extend_from_slice(attribute.bytes())?;
    Ok(Failure {
        place: None,
        words: Text::from(words),
    })
}

/// The first of the attributes of a parameter that none of the fields gives.
fn first_attribute(
    alloc: Global,
    parameter: &Text,
    fields: &[FieldTree],
    attributes: &[Text],
) -> Result<Option<Failure>, Memory>
    ensures first { IfOk result (λ found. found
        ≡ failures.first (flat_map (names.missing_attribute parameter.now fields.now) attributes.now)) }
    ensures nowhere { IfOk result (λ found. IfSome found (λ failure. failure.place ≡ None)) }
{
    let places = first_places(alloc, fields)?;
    'attribute: for attribute in attributes {
        if first_named(fields, &places, attribute).is_none() {
            return Ok(Some(absent_attribute(alloc, parameter, attribute)?));
        }
    }
    Ok(None)
}

/// The failure that a parameter, or else the first of its attributes, isn't bound.
fn missing_in(
    alloc: Global,
    scope: &Scope,
    parameter: &ParamTree,
    given: Option<&GivenTree>,
) -> Result<Option<Failure>, Memory>
    ensures first { IfOk result (λ found. found
        ≡ failures.first (names.missing_in scope.now parameter.now (option_copied given.entry))) }
    ensures nowhere { IfOk result (λ found. IfSome found (λ failure. failure.place ≡ None)) }
{
    let name = &parameter.name.text;
    match given {
        Some(given) => {
            let attributes = attributes_of(alloc, scope, parameter)?;
            first_attribute(alloc, name, fields_of(&given.bound), attributes.items())
        }
        None => Ok(Some(absent(alloc, name)?)),
    }
}

/// The first name that isn't bound: one of the parameters, or an attribute of one that is.
fn first_among(
    alloc: Global,
    scope: &Scope,
    parameters: &[ParamTree],
    givens: &[GivenTree],
) -> Result<Option<Failure>, Memory>
    ensures { IfOk result (λ found. found
        ≡ failures.first (flat_map (missing scope.now givens.now) parameters.now)) }
{
    let places = first_places(alloc, givens)?;
    'parameter: for parameter in parameters {
        let given = first_named(givens, &places, &parameter.name.text);
        match missing_in(alloc, scope, parameter, given)? {
            Some(failure) => return Ok(Some(failure)),
            None => {}
        }
    }
    Ok(None)
}

/// The first name that isn't bound.
pub(crate) fn first_missing(
    alloc: Global,
    scope: &Scope,
    spec: &SpecTree,
    tree: &BindTree,
) -> Result<Option<Failure>, Memory>
    ensures { IfOk result (λ found. found
        ≡ failures.first (missing_names scope.now spec.now tree.now)) }
{
    let parameters = spec.contract.parameters.items();
    first_among(alloc, scope, parameters, tree.parameters.items())
}
