ghost use Rattle.std.specs.Prelude.{◌≡◌, IfOk};
ghost use Rattle.sy_lex.specs.Lexemes.{lexeme_of, written as written_of};

use std::alloc::Global;
use std::marker::Model;
use sy_base::{Memory, Place, Text};
use sy_lex::{Token, TokenKind, Written};

/// A token with its text.
#[derive(Debug, Drop)]
pub struct Lexeme<'s> {
    pub kind: TokenKind,
    pub text: &'s [u8],
    pub place: Place,
}

impl<'s> Model for Lexeme<'s> {
    ghost use Rattle.sy_lex.specs.Lexemes.{Lexeme as ALexeme};

    ghost Value = { ALexeme };

    ghost view = { λ l. record { kind = l.kind; text = l.text.now; place = l.place } };
}

impl<'s> Lexeme<'s> {
    /// A token of this source.
    pub(crate) fn of(source: &'s [u8], token: &Token) -> Lexeme<'s>
        ensures { result ≡ lexeme_of source.now token.now }
    {
        Lexeme {
            kind: token.kind,
            text: token.text(source),
            place: token.place,
        }
    }

    /// The token as a tree keeps it.
    pub fn written(&self, alloc: Global) -> Result<Written, Memory>
        ensures { IfOk result (λ w. w ≡ written_of self.now) }
    {
        Ok(Written {
            text: Text::new(alloc, self.text)?,
            place: self.place,
        })
    }
}
