ghost use Rattle.std.specs.Prelude.{ℕ, ◌≡◌, ◌+◌, ◌<◌, ◌^◌, length};
ghost use Rattle.sy_lex.specs.Tokens.{end_of, first_spot, next_spot, spot_after, token_at};
ghost use Rattle.sy_lex.specs.Machine.Room.{HasRoom};

use crate::{Token, TokenKind};
use sy_base::Place;

/// Where a byte of a text stands.
#[derive(Clone, Copy, Debug)]
pub(crate) struct Spot {
    /// How many bytes are before it.
    pub offset: u32,
    pub place: Place,
}

impl Spot {
    /// Where the first byte stands.
    pub fn first() -> Spot
        ensures { result ≡ first_spot }
    {
        Spot {
            offset: 0,
            place: Place { line: 1, column: 1 },
        }
    }

    /// Where the byte behind this one stands.
    fn next(self, byte: u8) -> Spot
        requires { HasRoom self 1 }
        ensures { result ≡ next_spot self byte }
    {
        let place = if byte == b'\n' {
            Place {
                line: self.place.line + 1,
                column: 1,
            }
        } else {
            Place {
                line: self.place.line,
                column: self.place.column + 1,
            }
        };
        Spot {
            offset: self.offset + 1,
            place,
        }
    }

    /// Where the byte behind these stands.
    pub fn after(self, bytes: &[u8]) -> Spot
        requires { HasRoom self (length bytes.now) }
        ensures value { result ≡ spot_after self bytes.now }
        ensures room { (n : ℕ) → HasRoom self (length bytes.now + n) → HasRoom result n }
    {
        let mut spot = self;
        'bytes: for byte in bytes {
            spot = spot.next(*byte);
        }
        spot
    }

    /// The token of `length` bytes that begins there.
    pub fn token(self, kind: TokenKind, length: usize) -> Token
        requires { HasRoom self length }
        ensures { result ≡ token_at kind length self }
    {
        Token {
            kind,
            from: self.offset,
            to: self.offset + length as u32,
            place: self.place,
        }
    }
}

/// Where the byte behind a text would stand: one past its last. Behind a last newline that is
/// column 1 of the next line.
pub fn end_place(text: &[u8]) -> Place
    requires few { length text.now < 2 ^ 32 }
    ensures { result ≡ end_of text.now }
{
    Spot::first().after(text).place
}
