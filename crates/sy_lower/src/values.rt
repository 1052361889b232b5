ghost use Rattle.std.specs.Prelude.{◌≡◌, IfOk, option_copied};
ghost use Rattle.sy_core.specs.Values as kinds;
ghost use Rattle.sy_core.specs.Values.{is_value_of};
ghost use Rattle.sy_lower.specs.Basis.{frame};
ghost use Rattle.sy_lower.specs.Values as values;
ghost use Rattle.sy_lower.specs.Values.{value_as};

use crate::Lowering;
use sy_base::{Memory, Point, TimeUnit};
use sy_core::{Choices, Value, ValueKind};
use sy_given::Known;
use sy_terms::Item;

/// The greatest number that there is, and the greatest below 0 without its sign.
const GREATEST: i64 = 1_000_000_000_000_000;

/// Whether a point is one of a date.
pub(crate) fn is_dated(unit: TimeUnit, point: Point) -> bool
    ensures { result ≡ kinds.is_dated unit point }
{
    match unit {
        TimeUnit::Minute => -36_816_480 <= point && point <= 541_727_999,
        TimeUnit::Hour => -613_608 <= point && point <= 9_028_799,
        TimeUnit::Day => -25_567 <= point && point <= 376_199,
    }
}

/// Whether an enumeration has so many constants that this is one.
fn is_constant_of(constant: u32, choices: Option<&Choices>) -> bool
    ensures { result ≡ kinds.is_constant_of constant (option_copied choices.entry) }
{
    match choices {
        Some(choices) => (constant as usize) < choices.names.items().len(),
        None => false,
    }
}

impl Lowering<'_> {
    /// Whether a value is of a kind, and in its range.
    fn is_value_of(&self, kind: ValueKind, value: &Value) -> bool
        ensures { result ≡ is_value_of (frame self.now) kind value.now }
    {
        match (kind, value) {
            (ValueKind::Number, Value::Number(number)) => {
                -GREATEST <= *number && *number <= GREATEST
            }
            (ValueKind::Text, Value::Text(_)) | (ValueKind::Boolean, Value::Boolean(_)) => true,
            (ValueKind::Date, Value::Date(point)) => is_dated(self.environment.unit(), *point),
            (ValueKind::Choice(of), Value::Choice(enumeration, constant)) => {
                let choices = self.declared.choices().get(of as usize);
                of == *enumeration && is_constant_of(*constant, choices)
            }
            _ => false,
        }
    }

    /// A known value as one of the deed, if it is one.
    fn value(&self, known: Known) -> Result<Option<Value>, Memory>
        ensures { IfOk result (λ value. value ≡ values.value_of self.now.declared.choice_numbers known) }
    {
        Ok(match known {
            Known::Number(number) => Some(Value::Number(number)),
            Known::Text(text) => Some(Value::Text(text)),
            Known::Boolean(truth) => Some(Value::Boolean(truth)),
            Known::Date(point) => Some(Value::Date(point)),
            Known::Constant(of, constant) => match self.declared.enumeration(of) {
                Some(enumeration) => {
                    Some(Value::Choice(enumeration, u32::try_from(constant).map_err(|_| Memory)?))
                }
                None => None,
            },
        })
    }

    /// The value that an item is, where it is one of a kind, and in its range.
    pub(crate) fn value_as(
        &self,
        kind: ValueKind,
        item: Option<Item>,
    ) -> Result<Option<Value>, Memory>
        ensures { IfOk result (λ value. value
            ≡ value_as (frame self.now) self.now.declared.choice_numbers kind item) }
    {
        let Some(Item::Value(known)) = item else {
            return Ok(None);
        };
        match self.value(known)? {
            Some(value) if self.is_value_of(kind, &value) => Ok(Some(value)),
            _ => Ok(None),
        }
    }
}
