ghost use Rattle.std.specs.Prelude.{◌≡◌, ◌++◌, IfOk, OnOk};
ghost use Rattle.std.specs.List.{flat_map};
ghost use Rattle.sy_given.specs.BoundNames as names;
ghost use Rattle.sy_given.specs.BoundNames.{extra, extra_field, extra_names};

use crate::repeats::fields_of;
use std::alloc::Global;
use sy_base::{List, Memory, Text};
use sy_binding::{BindTree, FieldTree, GivenTree};
use sy_domain::{Failure, Meaning, Sort, fail_unless};
use sy_scope::Scope;

/// The sort of the parameter that a name stands for.
pub(crate) fn sort_of_parameter(scope: &Scope, name: &Text) -> Option<Sort>
    ensures { result ≡ names.sort_of_parameter scope.now name.now }
{
    match scope.meaning(name) {
        Some(Meaning::Parameter(number)) => scope.parameters().get(number).copied(),
        _ => None,
    }
}

/// The names within braces that are no attributes of a parameter of the sort.
fn extra_fields(
    alloc: Global,
    scope: &Scope,
    sort: Sort,
    fields: &[FieldTree],
    out: &mut List<Failure>,
) -> Result<(), Memory>
    ensures { OnOk result (out.new ≡ out.old ++ flat_map (extra_field scope.now sort) fields.now) }
{
    'field: for field in fields {
        let is_attribute = scope.plain(sort, &field.name.text).is_some();
        fail_unless(alloc, is_attribute, &field.name, out)?;
    }
    Ok(())
}

/// A bound name that is no parameter, or those within its braces that are no attributes of it.
fn extra_given(
    alloc: Global,
    scope: &Scope,
    given: &GivenTree,
    out: &mut List<Failure>,
) -> Result<(), Memory>
    ensures { OnOk result (out.new ≡ out.old ++ extra scope.now given.now) }
{
    match sort_of_parameter(scope, &given.name.text) {
        Some(sort) => extra_fields(alloc, scope, sort, fields_of(&given.bound), out),
        None => out.push(Failure::at(alloc, &given.name)?),
    }
}

/// The bound names that are no parameters, or no attributes of theirs.
fn extra_each(
    alloc: Global,
    scope: &Scope,
    givens: &[GivenTree],
    out: &mut List<Failure>,
) -> Result<(), Memory>
    ensures { OnOk result (out.new ≡ out.old ++ flat_map (extra scope.now) givens.now) }
{
    'given: for given in givens {
        extra_given(alloc, scope, given, out)?;
    }
    Ok(())
}

/// The bound names that are no parameters, or no attributes of theirs.
pub(crate) fn find_extra(
    alloc: Global,
    scope: &Scope,
    tree: &BindTree,
) -> Result<List<Failure>, Memory>
    ensures { IfOk result (λ found. found ≡ extra_names scope.now tree.now) }
{
    let mut out = List::new(alloc);
    extra_each(alloc, scope, tree.parameters.items(), &mut out)?;
    Ok(out)
}
