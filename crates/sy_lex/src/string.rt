ghost use Rattle.std.specs.Prelude.{◌≡◌, ◌+◌, ◌<◌, ◌^◌, length};
ghost use Rattle.sy_lex.specs.Machine.Cutting as cutting;
ghost use Rattle.sy_lex.specs.Machine.Cutting.{IsWithin, Moves, string_step};

use crate::TokenKind;
use crate::step::Step;

/// How many bytes of content a text between quotes may have.
const CONTENT_LIMIT: u16 = 256;

/// What stands next in a text between quotes.
#[derive(Clone, Copy, Debug)]
pub(crate) enum Inside {
    /// A byte of content, written in so many bytes.
    Content(usize),
    /// The quote at its end.
    Quote,
    /// Neither: so many bytes may begin one, and the next byte or the end can't go on.
    Bad(usize),
}

/// What stands next where so many bytes of content more are allowed.
fn next_inside(left: u16, bytes: &[u8]) -> Inside
    ensures value { result ≡ cutting.next_inside left bytes.now }
    ensures within { IsWithin (length bytes.now) result }
{
    match bytes {
        [b'"', ..] => Inside::Quote,
        _ if left == 0 => Inside::Bad(0),
        [] | [b'\n', ..] => Inside::Bad(0),
        [b'\\', b'"' | b'\\', ..] => Inside::Content(2),
        [b'\\', ..] => Inside::Bad(1),
        [_, ..] => Inside::Content(1),
    }
}

/// A text between quotes, of which the first quote was read.
pub(crate) fn string(bytes: &[u8]) -> Step
    requires few { length bytes.now < 2 ^ 32 }
    ensures value { result ≡ string_step 256 1 bytes.now }
    ensures moves { Moves (length bytes.now + 1) result }
{
    let mut rest = bytes;
    let mut at = 1;
    let mut left = CONTENT_LIMIT;
    'content: loop {
        match next_inside(left, rest) {
            Inside::Quote => return Step::Token(TokenKind::Str, at + 1),
            Inside::Bad(n) => return Step::Bad(at + n),
            Inside::Content(n) => {
                rest = &rest[n..];
                at += n;
                left -= 1;
            }
        }
    }
}
