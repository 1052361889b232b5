ghost use Rattle.std.specs.Prelude.{◌≡◌, slice_get};
ghost use Rattle.sy_core.specs.Matching.{matches, guards_hold, guard_holds, compares, numbers_compare, equals_compare};

use crate::event::{Ev, Guard};
use crate::happening::What;
use crate::value::Value;
use sy_words::Cmp;

fn numbers_compare(cmp: Cmp, a: i64, b: i64) -> bool
    ensures { result ≡ numbers_compare cmp a b }
{
    match cmp {
        Cmp::Eq => a == b,
        Cmp::Ne => a != b,
        Cmp::Lt => a < b,
        Cmp::Le => a <= b,
        Cmp::Gt => a > b,
        Cmp::Ge => a >= b,
    }
}

fn equals_compare(cmp: Cmp, same: bool) -> bool
    ensures { result ≡ equals_compare cmp same }
{
    match cmp {
        Cmp::Eq => same,
        Cmp::Ne => !same,
        _ => false,
    }
}

fn compares(cmp: Cmp, a: &Value, b: &Value) -> bool
    ensures { result ≡ compares cmp a.now b.now }
{
    match (a, b) {
        (Value::Number(x), Value::Number(y)) => numbers_compare(cmp, *x, *y),
        (Value::Date(x), Value::Date(y)) => numbers_compare(cmp, *x, *y),
        (Value::Text(x), Value::Text(y)) => equals_compare(cmp, x == y),
        (Value::Boolean(x), Value::Boolean(y)) => equals_compare(cmp, x == y),
        (Value::Choice(e, x), Value::Choice(f, y)) => e == f && equals_compare(cmp, x == y),
        _ => false,
    }
}

fn guard_holds(guard: &Guard, values: &[Value]) -> bool
    ensures { result ≡ guard_holds guard.now (slice_get values.now guard.now.attr) }
{
    match values.get(guard.attr as usize) {
        None => false,
        Some(value) => compares(guard.cmp, value, &guard.value),
    }
}

fn guards_hold(guards: &[Guard], values: &[Value]) -> bool
    ensures { result ≡ guards_hold guards.now values.now }
{
    guards.iter().all(|guard| guard_holds(guard, values))
}

/// Whether what happened is of the event, with each guard true of its values.
///
/// A guard isn't true where its attribute has no value there, or where its two values can't be
/// compared: `Eq` and `Ne` compare values of one type, the others two numbers or two dates. Internal
/// events are no happenings, so none matches here.
pub fn matches(ev: &Ev, what: &What) -> bool
    ensures { result ≡ matches ev.now what.now }
{
    match (ev, what) {
        (Ev::Outer(event, guards), What::Event(of, values)) => {
            *event == *of && guards_hold(guards.items(), values.items())
        }
        _ => false,
    }
}
