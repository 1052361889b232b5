ghost use Rattle.std.specs.Prelude.{◌≡◌, ◌++◌, IfOk, OnOk};
ghost use Rattle.std.specs.List.{flat_map};
ghost use Rattle.sy_domain.specs.Failures.{at};
ghost use Rattle.sy_scope.specs.Scopes.{meaning_of};
ghost use Rattle.sy_given.specs.BoundTypes as types;
ghost use Rattle.sy_given.specs.BoundTypes.{value_token, wrong, wrong_bound, wrong_field, wrong_value, wrong_values};

use crate::extra::sort_of_parameter;
use std::alloc::Global;
use sy_base::{List, Memory, Text};
use sy_binding::{BindTree, BoundTree, FieldTree, GivenTree, ValueTree};
use sy_domain::{Failure, Meaning, Sort};
use sy_scope::{Scope, fail_at};

/// Whether a name stands for a constant of the enumeration with a number.
fn is_constant_of(scope: &Scope, number: usize, name: &Text) -> bool
    ensures { result ≡ types.is_constant_of number (meaning_of scope.now name.now) }
{
    match scope.meaning(name) {
        Some(Meaning::Constant(of, _)) => of == number,
        _ => false,
    }
}

/// Whether a value is of a sort.
fn is_of(scope: &Scope, sort: Sort, value: &ValueTree) -> bool
    ensures { result ≡ types.is_of scope.now sort value.now }
{
    match (sort, value) {
        (Sort::Number, ValueTree::Number(_) | ValueTree::Negative(_, _)) => true,
        (Sort::Text, ValueTree::Str(_)) => true,
        (Sort::Boolean, ValueTree::Const(_, _)) => true,
        (Sort::Date, ValueTree::Date(_)) => true,
        (Sort::Declared(number), ValueTree::Name(name)) => {
            is_constant_of(scope, number, &name.text)
        }
        _ => false,
    }
}

/// The failure at the first token of a value.
fn fail_at_value(alloc: Global, value: &ValueTree) -> Result<Failure, Memory>
    ensures { IfOk result (λ failure. failure ≡ at (value_token value.now)) }
{
    match value {
        ValueTree::Number(token)
        | ValueTree::Str(token)
        | ValueTree::Date(token)
        | ValueTree::Name(token) => Failure::at(alloc, token),
        ValueTree::Negative(place, _) => fail_at(alloc, b"-", *place),
        ValueTree::Const(true, place) => fail_at(alloc, b"true", *place),
        ValueTree::Const(false, place) => fail_at(alloc, b"false", *place),
    }
}

/// A value that isn't of its sort.
fn check_value(
    alloc: Global,
    scope: &Scope,
    sort: Sort,
    value: &ValueTree,
    out: &mut List<Failure>,
) -> Result<(), Memory>
    ensures { OnOk result (out.new ≡ out.old ++ wrong_value scope.now sort value.now) }
{
    if !is_of(scope, sort, value) {
        out.push(fail_at_value(alloc, value)?)?;
    }
    Ok(())
}

/// A value of an attribute that isn't of the attribute's sort.
fn check_field(
    alloc: Global,
    scope: &Scope,
    sort: Sort,
    field: &FieldTree,
    out: &mut List<Failure>,
) -> Result<(), Memory>
    ensures { OnOk result (out.new ≡ out.old ++ wrong_field scope.now sort field.now) }
{
    match scope.plain(sort, &field.name.text) {
        Some(sort) => check_value(alloc, scope, sort, &field.value, out),
        None => Ok(()),
    }
}

/// The values of attributes that aren't of the attributes' sorts.
fn check_fields(
    alloc: Global,
    scope: &Scope,
    sort: Sort,
    fields: &[FieldTree],
    out: &mut List<Failure>,
) -> Result<(), Memory>
    ensures { OnOk result (out.new ≡ out.old ++ flat_map (wrong_field scope.now sort) fields.now) }
{
    'field: for field in fields {
        check_field(alloc, scope, sort, field, out)?;
    }
    Ok(())
}

/// What a parameter of a sort is bound to, where it isn't of the sort.
fn check_bound(
    alloc: Global,
    scope: &Scope,
    sort: Sort,
    bound: &BoundTree,
    out: &mut List<Failure>,
) -> Result<(), Memory>
    ensures { OnOk result (out.new ≡ out.old ++ wrong_bound scope.now sort bound.now) }
{
    match bound {
        BoundTree::Value(value) => check_value(alloc, scope, sort, value, out),
        BoundTree::Attributes(place, fields) => {
            if scope.is_value(sort) {
                out.push(fail_at(alloc, b"{", *place)?)?;
            }
            check_fields(alloc, scope, sort, fields.items(), out)
        }
    }
}

/// The values of a parameter that aren't of its sort.
fn check_given(
    alloc: Global,
    scope: &Scope,
    given: &GivenTree,
    out: &mut List<Failure>,
) -> Result<(), Memory>
    ensures { OnOk result (out.new ≡ out.old ++ wrong scope.now given.now) }
{
    match sort_of_parameter(scope, &given.name.text) {
        Some(sort) => check_bound(alloc, scope, sort, &given.bound, out),
        None => Ok(()),
    }
}

/// The values that aren't of the sorts of their parameters and attributes.
fn check_each(
    alloc: Global,
    scope: &Scope,
    givens: &[GivenTree],
    out: &mut List<Failure>,
) -> Result<(), Memory>
    ensures { OnOk result (out.new ≡ out.old ++ flat_map (wrong scope.now) givens.now) }
{
    'given: for given in givens {
        check_given(alloc, scope, given, out)?;
    }
    Ok(())
}

/// The values that aren't of the types of their parameters and attributes.
pub(crate) fn find_wrong(
    alloc: Global,
    scope: &Scope,
    tree: &BindTree,
) -> Result<List<Failure>, Memory>
    ensures { IfOk result (λ found. found ≡ wrong_values scope.now tree.now) }
{
    let mut out = List::new(alloc);
    check_each(alloc, scope, tree.parameters.items(), &mut out)?;
    Ok(out)
}
