ghost use Rattle.std.specs.Prelude.{◌≡◌, ◌+◌, ◌<◌, ◌≤◌, ◌^◌, true, IfSome, length, slice_index};
ghost use Rattle.sy_lex.specs.Bytes as of_byte;
ghost use Rattle.sy_lex.specs.Machine.Cutting as cutting;
ghost use Rattle.sy_lex.specs.Machine.Cutting.{Moves, step_at};

use crate::bytes::{digits_length, is_blank, is_letter, line_length, word_length};
use crate::string::string;
use crate::{Keyword, Sign, TokenKind};
use sy_time::has_date_form;

/// What stands at the front of bytes.
#[derive(Clone, Copy, Debug)]
pub(crate) enum Step {
    /// A token of so many bytes.
    Token(TokenKind, usize),
    /// A blank or a comment of so many bytes.
    Skip(usize),
    /// Neither: so many bytes may begin one, and the next byte or the end can't go on.
    Bad(usize),
}

/// A word at the front, or a reserved one.
fn word(bytes: &[u8]) -> Step
    ensures value { result ≡ cutting.word_step bytes.now }
    ensures moves { of_byte.is_letter (slice_index bytes.now 0) ≡ true → Moves (length bytes.now) result }
{
    let length = word_length(bytes);
    if length > 64 {
        return Step::Bad(64);
    }
    let kind = match Keyword::of(&bytes[..length]) {
        Some(keyword) => TokenKind::Reserved(keyword),
        None => TokenKind::Word,
    };
    Step::Token(kind, length)
}

/// Whether so many bytes are there, and have the form of a date.
fn begins_date(bytes: &[u8], length: usize) -> bool
    ensures { result ≡ cutting.begins_date length bytes.now }
{
    match bytes.get(..length) {
        Some(text) => has_date_form(text),
        None => false,
    }
}

/// How many bytes the longest date at the front has.
fn date_length(bytes: &[u8]) -> Option<usize>
    ensures value { result ≡ cutting.date_length bytes.now }
    ensures within { IfSome result (λ n. (0 < n) × (n ≤ length bytes.now)) }
{
    if begins_date(bytes, 16) {
        Some(16)
    } else if begins_date(bytes, 13) {
        Some(13)
    } else if begins_date(bytes, 10) {
        Some(10)
    } else {
        None
    }
}

/// A number at the front.
fn number(bytes: &[u8]) -> Step
    ensures value { result ≡ cutting.number_step bytes.now }
    ensures moves { of_byte.is_digit (slice_index bytes.now 0) ≡ true → Moves (length bytes.now) result }
{
    let length = digits_length(bytes);
    if length > 18 {
        Step::Bad(18)
    } else {
        Step::Token(TokenKind::Number, length)
    }
}

/// A date or a number at the front.
fn date_or_number(bytes: &[u8]) -> Step
    ensures value { result ≡ cutting.digit_step bytes.now }
    ensures moves { of_byte.is_digit (slice_index bytes.now 0) ≡ true → Moves (length bytes.now) result }
{
    match date_length(bytes) {
        Some(length) => Step::Token(TokenKind::Date, length),
        None => number(bytes),
    }
}

/// A comment, of which the first `/` was read.
fn comment(bytes: &[u8]) -> Step
    requires { length bytes.now < 2 ^ 32 }
    ensures value { result ≡ cutting.slash_step bytes.now }
    ensures moves { Moves (length bytes.now + 1) result }
{
    match bytes {
        [b'/', inside @ ..] => Step::Skip(2 + line_length(inside)),
        _ => Step::Bad(1),
    }
}

/// A sign at the front.
fn sign(bytes: &[u8]) -> Step
    ensures value { result ≡ cutting.sign_step bytes.now }
    ensures moves { Moves (length bytes.now) result }
{
    match (Sign::at(bytes), bytes) {
        (Some(sign), _) => Step::Token(TokenKind::Sign(sign), sign.text().len()),
        (None, [b'!', ..]) => Step::Bad(1),
        (None, _) => Step::Bad(0),
    }
}

/// What stands at the front of the bytes, of which one at least is there.
pub(crate) fn next_step(bytes: &[u8]) -> Step
    requires few { length bytes.now < 2 ^ 32 }
    ensures value { result ≡ step_at bytes.now }
    ensures moves { 0 < length bytes.now → Moves (length bytes.now) result }
{
    match bytes {
        [] => Step::Bad(0),
        [b'"', inside @ ..] => string(inside),
        [b'/', inside @ ..] => comment(inside),
        [first, ..] => {
            if is_blank(*first) {
                Step::Skip(1)
            } else if is_letter(*first) {
                word(bytes)
            } else if first.is_ascii_digit() {
                date_or_number(bytes)
            } else {
                sign(bytes)
            }
        }
    }
}
