ghost use Rattle.std.specs.Prelude.{◌≡◌, ◌+ℤ◌, ◌-ℤ◌, ◌*ℤ◌};
ghost use Rattle.sy_given.specs.Bound as bound;
ghost use Rattle.sy_terms.specs.Terms as terms;
ghost use Rattle.sy_terms.specs.Terms.{computed};

use sy_lex::Written;
use sy_literal::number;

/// The greatest number. The least is its negative.
const GREATEST_NUMBER: i64 = 1_000_000_000_000_000;

/// The number that a token writes.
pub(crate) fn written_number(token: &Written) -> Option<i64>
    ensures { result ≡ bound.written_number token.now }
{
    match number(&token.text) {
        Some(number) => Some(number as i64),
        None => None,
    }
}

/// A number, where it is from -10^15 to 10^15.
fn in_range(number: i64) -> Option<i64>
    ensures { result ≡ terms.in_range number }
{
    if number < -GREATEST_NUMBER || number > GREATEST_NUMBER {
        None
    } else {
        Some(number)
    }
}

/// The product of two numbers, where they are there and it is in range.
pub(crate) fn product_of(a: Option<i64>, b: Option<i64>) -> Option<i64>
    ensures { result ≡ computed (λ a b. a *ℤ b) a b }
{
    match (a, b) {
        (Some(a), Some(b)) => in_range(a.checked_mul(b)?),
        _ => None,
    }
}

/// The sum of two numbers, where they are there and it is in range.
pub(crate) fn sum_of(a: Option<i64>, b: Option<i64>) -> Option<i64>
    ensures { result ≡ computed (λ a b. a +ℤ b) a b }
{
    match (a, b) {
        (Some(a), Some(b)) => in_range(a.checked_add(b)?),
        _ => None,
    }
}

/// The difference of two numbers, where they are there and it is in range.
pub(crate) fn difference_of(a: Option<i64>, b: Option<i64>) -> Option<i64>
    ensures { result ≡ computed (λ a b. a -ℤ b) a b }
{
    match (a, b) {
        (Some(a), Some(b)) => in_range(a.checked_sub(b)?),
        _ => None,
    }
}
