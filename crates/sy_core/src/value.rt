ghost use Rattle.std.specs.Prelude.{◌≡◌, IfOk, IsTrue, ◌↔◌};

use std::alloc::Global;
use sy_base::{Memory, Point, Text};

/// What an attribute's values are.
#[derive(Clone, Copy, Debug, PartialEq, Eq)]
pub enum ValueKind {
    Number,
    Text,
    Boolean,
    Date,
    /// A constant of the enumeration with this place in the deed's `choices`.
    Choice(u32),
}

/// A value of an attribute.
#[derive(Debug, Drop, PartialEq, Eq, PartialOrd, Ord)]
pub enum Value {
    /// A whole number from -10^15 to 10^15.
    Number(i64),
    Text(Text),
    Boolean(bool),
    /// A date, in the deed's unit.
    Date(Point),
    /// An enumeration's place in the deed's `choices`, and the constant's place in the enumeration.
    Choice(u32, u32),
}

impl Value {
    /// An equal value.
    pub fn copy(&self, alloc: Global) -> Result<Value, Memory>
        ensures { IfOk result (λ v. v ≡ self.now) }
    {
        Ok(match self {
            Value::Number(number) => Value::Number(*number),
            Value::Text(text) => Value::Text(text.copy(alloc)?),
            Value::Boolean(truth) => Value::Boolean(*truth),
            Value::Date(point) => Value::Date(*point),
            Value::Choice(enumeration, constant) => Value::Choice(*enumeration, *constant),
        })
    }

    /// Whether the values are the same. So `==` answers too.
    pub fn is_same(&self, other: &Value) -> bool
        ensures { IsTrue result ↔ (self.now ≡ other.now) }
    {
        self == other
    }
}
