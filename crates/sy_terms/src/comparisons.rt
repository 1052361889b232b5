ghost use Rattle.std.specs.Prelude.{◌≡◌};
ghost use Rattle.sy_core.specs.Matching as matching;
ghost use Rattle.sy_terms.specs.Conditions as conditions;

use crate::Item;
use sy_given::Known;
use sy_words::Cmp;

/// Whether a comparison is true of two numbers, or of two points.
fn numbers_compare(cmp: Cmp, a: i64, b: i64) -> bool
    ensures { result ≡ matching.numbers_compare cmp a b }
{
    match cmp {
        Cmp::Eq => a == b,
        Cmp::Ne => a != b,
        Cmp::Lt => a < b,
        Cmp::Le => a <= b,
        Cmp::Gt => a > b,
        Cmp::Ge => a >= b,
    }
}

/// The same of values that have no order.
fn equals_compare(cmp: Cmp, same: bool) -> bool
    ensures { result ≡ matching.equals_compare cmp same }
{
    match cmp {
        Cmp::Eq => same,
        Cmp::Ne => !same,
        _ => false,
    }
}

/// The same of two values.
fn known_compares(cmp: Cmp, a: &Known, b: &Known) -> bool
    ensures { result ≡ conditions.known_compares cmp a.now b.now }
{
    match (a, b) {
        (Known::Number(a), Known::Number(b)) => numbers_compare(cmp, *a, *b),
        (Known::Date(a), Known::Date(b)) => numbers_compare(cmp, *a, *b),
        (Known::Text(a), Known::Text(b)) => equals_compare(cmp, a == b),
        (Known::Boolean(a), Known::Boolean(b)) => equals_compare(cmp, a == b),
        (Known::Constant(e, a), Known::Constant(f, b)) => e == f && equals_compare(cmp, a == b),
        _ => false,
    }
}

/// The same of what two terms stand for.
pub(crate) fn items_compare(cmp: Cmp, a: &Option<Item>, b: &Option<Item>) -> bool
    ensures { result ≡ conditions.items_compare cmp a.now b.now }
{
    match (a, b) {
        (Some(Item::Value(a)), Some(Item::Value(b))) => known_compares(cmp, a, b),
        _ => false,
    }
}
