ghost use Rattle.std.specs.Prelude.{◌≡◌, ◌↔◌, ◌≤◌, ◌^◌, ℤ, IfOk, IfSome, Some};
ghost use Rattle.sy_base.specs.Dates.{IsDateText};
ghost use Rattle.sy_base.specs.Points.{IsDated};
ghost use Rattle.sy_lex.specs.Forms.{IsString};
ghost use Rattle.sy_literal.specs.Values as values;
ghost use Rattle.sy_literal.specs.Values.{date_point, number_in_range, text_content};

use std::alloc::Global;
use sy_base::{Memory, Point, Text, TimeUnit};
use sy_time::read_date;

/// The greatest number that a text may write.
pub(crate) const GREATEST_NUMBER: u64 = 1_000_000_000_000_000;

/// A number with one more digit behind it.
fn with_digit(number: u64, digit: u8) -> u64
    requires { number ≤ 10 ^ 15 }
    ensures { result ≡ values.with_digit number digit }
{
    10 * number + digit.saturating_sub(b'0') as u64
}

/// The number that digits write, where it is at most 10^15.
pub fn number(digits: &Text) -> Option<u64>
    ensures value { result ≡ number_in_range digits.now }
    ensures bound { IfSome result (λ number. number ≤ 10 ^ 15) }
{
    let mut number = 0;
    'digit: for digit in digits.bytes() {
        number = with_digit(number, *digit);
        if number > GREATEST_NUMBER {
            return None;
        }
    }
    Some(number)
}

/// The bytes without the first and the last.
fn between_ends(bytes: &[u8]) -> &[u8]
    ensures { result.now ≡ values.between_ends bytes.now }
{
    match bytes {
        [_, inside @ .., _] => inside,
        _ => &[],
    }
}

/// The content of a text between quotes: `\"` and `\\` stand for their second byte.
pub fn content(alloc: Global, text: &Text) -> Result<Text, Memory>
    ensures value { IfOk result (λ content. content ≡ text_content text.now) }
    // The text's bytes have that content and no other.
    ensures string { (string : IsString text.now) → IfOk result (λ content. content ≡ string.content) }
{
    let mut content = Vec::new(alloc);
    let mut rest = between_ends(text.bytes());
    'byte: loop {
        rest = match rest {
            [] => return Ok(Text::from(content)),
            [b'\\', escaped, after @ ..] => {
                content.push(*escaped)?;
                after
            }
            [byte, after @ ..] => {
                content.push(*byte)?;
                after
            }
        };
    }
}

/// The point of a date's text: None where the text is no date, or has a fault in the unit, which is
/// a part finer than the unit, a day or a time that isn't there, or a year before 1900 or after 2999.
pub fn date(unit: TimeUnit, text: &Text) -> Option<Point>
    ensures value { result ≡ date_point unit text.now }
    ensures text { (point : ℤ) → (result ≡ Some point) ↔ IsDateText unit text.now point }
    ensures dated { IfSome result (IsDated unit) }
{
    read_date(unit, text.bytes()).ok()
}
