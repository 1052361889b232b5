ghost use Rattle.std.specs.Prelude.{◌≡◌};
ghost use Rattle.sy_lex.specs.Lexemes.{text_of};

use crate::{Keyword, Sign};
use sy_base::Place;

/// What a token is.
#[derive(Clone, Copy, Debug, PartialEq, Eq)]
pub enum TokenKind {
    /// A letter, then letters, digits and `_`: 1 to 64 bytes, and no reserved word.
    Word,
    Reserved(Keyword),
    /// 1 to 18 digits.
    Number,
    /// `dddd-dd-dd`, `dddd-dd-ddTdd` or `dddd-dd-ddTdd:dd`, where each `d` is a digit.
    Date,
    /// At most 256 bytes of content between two `"`.
    Str,
    Sign(Sign),
}

/// A token of a text. Its own text is the bytes of the source from `from` to before `to`.
#[derive(Clone, Copy, Debug, PartialEq, Eq)]
pub struct Token {
    pub kind: TokenKind,
    pub from: u32,
    pub to: u32,
    /// Where its first byte stands.
    pub place: Place,
}

impl Token {
    /// Its own text, as far as the source has it.
    pub fn text<'s>(&self, source: &'s [u8]) -> &'s [u8]
        ensures { result.now ≡ text_of source.now self.now.from self.now.to }
    {
        let rest = source.get(self.from as usize..).unwrap_or(&[]);
        rest.get(..self.to.saturating_sub(self.from) as usize)
            .unwrap_or(rest)
    }
}
