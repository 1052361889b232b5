ghost use Rattle.std.specs.Prelude.{◌≡◌, IfOk, option_copied};
ghost use Rattle.std.specs.List.{list_any, list_all};
ghost use Rattle.sy_log.specs.Entries.{HasFewNames};
ghost use Rattle.sy_log.specs.Values as values;

use crate::names::place_named;
use std::alloc::Global;
use sy_base::{List, Memory, Text};
use sy_binding::{FieldTree, ValueTree};
use sy_core::{AttrDecl, Deed, Value, ValueKind};
use sy_lex::Written;
use sy_literal::{content, date, number};

/// The number that a token writes.
fn written_number(token: &Written) -> Option<i64>
    ensures { result ≡ values.written_number token.now }
{
    match number(&token.text) {
        Some(number) => Some(number as i64),
        None => None,
    }
}

/// The constant of an enumeration that has a name.
fn constant(deed: &Deed, of: u32, name: &Text) -> Option<Value>
    requires { HasFewNames deed.now }
    ensures { result ≡ values.constant deed.now of name.now }
{
    let Some(choices) = deed.choices.items().get(of as usize) else {
        return None;
    };
    match place_named(name, choices.names.items()) {
        Some(place) => Some(Value::Choice(of, place)),
        None => None,
    }
}

/// The value that is written, where it is one of the kind.
fn value_of(
    alloc: Global,
    deed: &Deed,
    kind: ValueKind,
    value: &ValueTree,
) -> Result<Option<Value>, Memory>
    requires { HasFewNames deed.now }
    ensures { IfOk result (λ found. found ≡ values.value_of deed.now kind value.now) }
{
    Ok(match (kind, value) {
        (ValueKind::Number, ValueTree::Number(token)) => written_number(token).map(Value::Number),
        (ValueKind::Number, ValueTree::Negative(_, token)) => {
            written_number(token).map(|number| Value::Number(-number))
        }
        (ValueKind::Text, ValueTree::Str(token)) => {
            Some(Value::Text(content(alloc, &token.text)?))
        }
        (ValueKind::Boolean, ValueTree::Const(truth, _)) => Some(Value::Boolean(*truth)),
        (ValueKind::Date, ValueTree::Date(token)) => date(deed.unit, &token.text).map(Value::Date),
        (ValueKind::Choice(of), ValueTree::Name(token)) => constant(deed, of, &token.text),
        _ => None,
    })
}

/// Whether the field gives a value to the name.
fn gives(name: &Text, field: &FieldTree) -> bool
    ensures { result ≡ values.gives name.now field.now }
{
    *name == field.name.text
}

/// Whether one of the fields gives a value to the name.
fn is_given(name: &Text, fields: &[FieldTree]) -> bool
    ensures { result ≡ list_any (values.gives name.now) fields.now }
{
    fields.iter().any(|field| gives(name, field))
}

/// The value that the fields give to a name, where exactly one gives it one.
fn given_once<'a>(name: &Text, fields: &'a [FieldTree]) -> Option<&'a ValueTree>
    ensures { option_copied result ≡ values.given_once name.now fields.now }
{
    let mut rest = fields;
    'field: loop {
        rest = match rest {
            [] => return None,
            [field, later @ ..] if gives(name, field) => {
                if is_given(name, later) {
                    return None;
                }
                return Some(&field.value);
            }
            [_, later @ ..] => later,
        };
    }
}

/// The value of an attribute.
fn value_given(
    alloc: Global,
    deed: &Deed,
    fields: &[FieldTree],
    attr: &AttrDecl,
) -> Result<Option<Value>, Memory>
    requires { HasFewNames deed.now }
    ensures { IfOk result (λ found. found ≡ values.value_given deed.now fields.now attr.now) }
{
    match given_once(&attr.name, fields) {
        Some(value) => value_of(alloc, deed, attr.kind, value),
        None => Ok(None),
    }
}

/// The value of each attribute, where each has one.
fn all_given(
    alloc: Global,
    deed: &Deed,
    fields: &[FieldTree],
    attrs: &[AttrDecl],
) -> Result<Option<List<Value>>, Memory>
    requires { HasFewNames deed.now }
    ensures { IfOk result (λ found. found ≡ values.all_given deed.now fields.now attrs.now) }
{
    let mut given = List::new(alloc);
    'attr: for attr in attrs {
        match value_given(alloc, deed, fields, attr)? {
            Some(value) => given.push(value)?,
            None => return Ok(None),
        }
    }
    Ok(Some(given))
}

/// Whether the field names one of the attributes.
fn is_attribute(attrs: &[AttrDecl], field: &FieldTree) -> bool
    ensures { result ≡ values.is_attribute attrs.now field.now }
{
    attrs.iter().any(|attr| gives(&attr.name, field))
}

/// Whether each field names one of the attributes.
fn are_attributes(attrs: &[AttrDecl], fields: &[FieldTree]) -> bool
    ensures { result ≡ list_all (values.is_attribute attrs.now) fields.now }
{
    fields.iter().all(|field| is_attribute(attrs, field))
}

/// The values of the attributes, in their order, where the fields name no others.
pub(crate) fn values_given(
    alloc: Global,
    deed: &Deed,
    attrs: &[AttrDecl],
    fields: &[FieldTree],
) -> Result<Option<List<Value>>, Memory>
    requires { HasFewNames deed.now }
    ensures { IfOk result (λ found. found ≡ values.values_given deed.now attrs.now fields.now) }
{
    match all_given(alloc, deed, fields, attrs)? {
        // There are no more attributes than fields now.
        Some(given) if are_attributes(attrs, fields) => Ok(Some(given)),
        _ => Ok(None),
    }
}
