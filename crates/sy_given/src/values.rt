ghost use Rattle.std.specs.Prelude.{◌≡◌, [], map, IfOk, option_copied};
ghost use Rattle.std.specs.List.{fold};
ghost use Rattle.sy_scope.specs.Scopes.{meaning_of};
ghost use Rattle.sy_given.specs.Bound as bound;
ghost use Rattle.sy_given.specs.Bound.{bound_or_nothing, bound_value, known, put_field};

use crate::named::{first_named, first_places};
use crate::{Bound, Fields, Known};
use std::alloc::Global;
use sy_base::{List, Memory, Text, TimeUnit};
use sy_binding::{BindTree, BoundTree, FieldTree, GivenTree, ValueTree};
use sy_domain::Meaning;
use sy_lex::Written;
use sy_literal::{content, date, number};
use sy_scope::Scope;
use sy_spec::{ParamTree, SpecTree};

/// The number that a token writes.
fn written_number(token: &Written) -> Option<i64>
    ensures { result ≡ bound.written_number token.now }
{
    match number(&token.text) {
        Some(number) => Some(number as i64),
        None => None,
    }
}

/// The constant that a name stands for.
fn constant(scope: &Scope, name: &Text) -> Option<Known>
    ensures { result ≡ bound.constant (meaning_of scope.now name.now) }
{
    match scope.meaning(name) {
        Some(Meaning::Constant(of, number)) => Some(Known::Constant(of, number)),
        _ => None,
    }
}

/// The value that is written, where it is one.
fn known_value(
    alloc: Global,
    scope: &Scope,
    unit: TimeUnit,
    value: &ValueTree,
) -> Result<Option<Known>, Memory>
    ensures { IfOk result (λ found. found ≡ known scope.now unit value.now) }
{
    Ok(match value {
        ValueTree::Number(token) => written_number(token).map(Known::Number),
        ValueTree::Negative(_, token) => written_number(token).map(|number| Known::Number(-number)),
        ValueTree::Str(token) => Some(Known::Text(content(alloc, &token.text)?)),
        ValueTree::Date(token) => date(unit, &token.text).map(Known::Date),
        ValueTree::Const(truth, _) => Some(Known::Boolean(*truth)),
        ValueTree::Name(token) => constant(scope, &token.text),
    })
}

/// The values of attributes that are written within braces.
fn fields_known(
    alloc: Global,
    scope: &Scope,
    unit: TimeUnit,
    fields: &[FieldTree],
) -> Result<Fields, Memory>
    ensures { IfOk result (λ values. values ≡ fold (put_field scope.now unit) [] fields.now) }
{
    let mut values = Fields::new(alloc);
    'field: for field in fields {
        match known_value(alloc, scope, unit, &field.value)? {
            Some(value) => values.put(field.name.text.copy(alloc)?, value)?,
            None => {}
        }
    }
    Ok(values)
}

/// What is given to a parameter.
fn bound_to(
    alloc: Global,
    scope: &Scope,
    unit: TimeUnit,
    given: Option<&GivenTree>,
) -> Result<Bound, Memory>
    ensures { IfOk result (λ b. b ≡ bound_or_nothing scope.now unit (option_copied given.entry)) }
{
    let Some(given) = given else {
        return Ok(Bound::Fields(Fields::new(alloc)));
    };
    match &given.bound {
        BoundTree::Value(value) => match known_value(alloc, scope, unit, value)? {
            Some(value) => Ok(Bound::Value(value)),
            None => Ok(Bound::Fields(Fields::new(alloc))),
        },
        BoundTree::Attributes(_, fields) => {
            Ok(Bound::Fields(fields_known(alloc, scope, unit, fields.items())?))
        }
    }
}

/// What each of the parameters is bound to.
fn all_bound(
    alloc: Global,
    scope: &Scope,
    unit: TimeUnit,
    parameters: &[ParamTree],
    givens: &[GivenTree],
) -> Result<List<Bound>, Memory>
    ensures { IfOk result (λ values. values
        ≡ map (bound_value scope.now unit givens.now) parameters.now) }
{
    let places = first_places(alloc, givens)?;
    let mut values = List::new(alloc);
    'parameter: for parameter in parameters {
        let given = first_named(givens, &places, &parameter.name.text);
        values.push(bound_to(alloc, scope, unit, given)?)?;
    }
    Ok(values)
}

/// What each parameter is bound to, by its number. Of a value that is none, or isn't bound, nothing
/// is known: the checks refuse a binding that has one.
pub fn bound_values(
    alloc: Global,
    scope: &Scope,
    spec: &SpecTree,
    tree: &BindTree,
) -> Result<List<Bound>, Memory>
    ensures { IfOk result (λ values. values
        ≡ bound.bound_values scope.now spec.now.contract.unit.unit spec.now tree.now) }
{
    let unit = spec.contract.unit.unit;
    let parameters = spec.contract.parameters.items();
    all_bound(alloc, scope, unit, parameters, tree.parameters.items())
}
