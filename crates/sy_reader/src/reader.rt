ghost use Rattle.std.specs.Prelude.{◌≡◌, ◌<◌, length, OnOk};
ghost use Rattle.sy_lex.specs.Lexemes.{lexemes_of};
ghost use Rattle.sy_lex.specs.declared.token.TokenKind.TheVariants as kinds;
ghost use Rattle.sy_reader.specs.Machine.Reading as spec;
ghost use Rattle.sy_reader.specs.Machine.Reading.{Peeks, Reads, begins_with, keyword_at, next_kind, sign_at, token_at};

use crate::fault::Fault;
use crate::lexeme::Lexeme;
use std::alloc::Global;
use std::marker::Model;
use sy_base::Place;
use sy_lex::{Keyword, Sign, Token, TokenKind, Written};

/// The tokens of a source that are left to be read, of which contracts see the lexemes.
///
/// After a call that answered an error a reader is only dropped.
#[derive(Debug, Drop)]
pub struct Reader<'s> {
    alloc: Global,
    source: &'s [u8],
    /// Those that are left.
    tokens: &'s [Token],
}

impl<'s> Model for Reader<'s> {
    ghost use Rattle.std.specs.Prelude.{List};
    ghost use Rattle.sy_lex.specs.Lexemes.{Lexeme as ALexeme, lexemes_of};

    ghost Value = { List ALexeme };

    ghost view = { λ reader. lexemes_of reader.source.now reader.tokens.now };
}

impl<'s> Reader<'s> {
    /// A reader of these tokens of the source.
    pub fn new(alloc: Global, source: &'s [u8], tokens: &'s [Token]) -> Reader<'s>
        ensures { result ≡ lexemes_of source.now tokens.now }
    {
        Reader {
            alloc,
            source,
            tokens,
        }
    }

    /// The allocator of what is read.
    pub fn alloc(&self) -> Global {
        self.alloc
    }

    /// How many lexemes are left.
    pub fn left(&self) -> usize
        ensures { result ≡ length self.now }
    {
        self.tokens.len()
    }

    /// That the next lexeme, or the end, doesn't fit.
    pub fn fault(&self) -> Fault
        ensures { result ≡ spec.fault_at self.now }
    {
        Fault::Syntax(self.left())
    }

    /// What the next lexeme is, if one is left.
    pub fn next(&self) -> Option<TokenKind>
        ensures { result ≡ next_kind self.now }
    {
        match self.tokens {
            [token, ..] => Some(token.kind),
            [] => None,
        }
    }

    /// Whether the next lexeme is of this kind.
    pub fn begins(&self, kind: TokenKind) -> bool
        ensures { result ≡ begins_with kind self.now }
    {
        match self.next() {
            Some(found) => is_kind(found, kind),
            None => false,
        }
    }

    /// The next lexeme, which stays.
    pub fn ahead(&self) -> Result<Lexeme<'s>, Fault>
        ensures { Peeks result self.now }
    {
        match self.tokens {
            [token, ..] => Ok(Lexeme::of(self.source, token)),
            [] => Err(self.fault()),
        }
    }

    /// Reads a lexeme of this kind.
    fn lexeme(&mut self, kind: TokenKind) -> Result<Lexeme<'s>, Fault>
        ensures gives { Reads result self.old self.new (spec.lexeme_at kind) }
        ensures shorter { OnOk result (length self.new < length self.old) }
    {
        if let [token, rest @ ..] = self.tokens
            && is_kind(token.kind, kind)
        {
            self.tokens = rest;
            return Ok(Lexeme::of(self.source, token));
        }
        Err(self.fault())
    }

    /// Reads a lexeme of this kind, for its place.
    pub fn place(&mut self, kind: TokenKind) -> Result<Place, Fault>
        ensures gives { Reads result self.old self.new (spec.place_at kind) }
        ensures shorter { OnOk result (length self.new < length self.old) }
    {
        Ok(self.lexeme(kind)?.place)
    }

    /// Reads a reserved word.
    pub fn keyword(&mut self, keyword: Keyword) -> Result<Place, Fault>
        ensures gives { Reads result self.old self.new (keyword_at keyword) }
        ensures shorter { OnOk result (length self.new < length self.old) }
    {
        self.place(TokenKind::Reserved(keyword))
    }

    /// Reads a sign.
    pub fn sign(&mut self, sign: Sign) -> Result<Place, Fault>
        ensures gives { Reads result self.old self.new (sign_at sign) }
        ensures shorter { OnOk result (length self.new < length self.old) }
    {
        self.place(TokenKind::Sign(sign))
    }

    /// Reads a token of this kind, with its text.
    pub fn token(&mut self, kind: TokenKind) -> Result<Written, Fault>
        ensures gives { Reads result self.old self.new (token_at kind) }
        ensures shorter { OnOk result (length self.new < length self.old) }
    {
        let lexeme = self.lexeme(kind)?;
        Ok(lexeme.written(self.alloc)?)
    }

    /// Reads a name.
    pub fn name(&mut self) -> Result<Written, Fault>
        ensures gives { Reads result self.old self.new (token_at kinds.Word) }
        ensures shorter { OnOk result (length self.new < length self.old) }
    {
        self.token(TokenKind::Word)
    }
}

/// Whether two kinds are the same.
fn is_kind(a: TokenKind, b: TokenKind) -> bool
    ensures { result ≡ spec.is_kind a b }
{
    match (a, b) {
        (TokenKind::Reserved(a), TokenKind::Reserved(b)) => a == b,
        (TokenKind::Sign(a), TokenKind::Sign(b)) => a == b,
        (TokenKind::Word, TokenKind::Word) => true,
        (TokenKind::Number, TokenKind::Number) => true,
        (TokenKind::Date, TokenKind::Date) => true,
        (TokenKind::Str, TokenKind::Str) => true,
        _ => false,
    }
}
