ghost use Rattle.std.specs.Prelude.{◌≡◌, ◌⊎◌, ℕ, ◌<◌, ◌^◌, length, List, IfOk, IfErr};
ghost use Rattle.sy_lex.specs.Machine.Cutting.{Gives, cut_of, refused_as};
ghost use Rattle.sy_lex.specs.Tokens.{HasText, IsFaultAt, IsLexFault, IsReadAs};
ghost use Rattle.sy_lex.specs.declared.cut.LexFault.TheVariants.{Memory as Wanting};
ghost use Rattle.sy_lex.specs.declared.token.Token.{Token as AToken};

use crate::Token;
use crate::spot::Spot;
use crate::step::{Step, next_step};
use std::alloc::Global;
use sy_base::{FaultName, FileKind, List, Memory, Place, Refusal, Refused, Text};
use thiserror::Error;

/// Why a text has no tokens.
#[derive(Clone, Copy, Debug, Error)]
pub(crate) enum LexFault {
    #[error("out of memory")]
    Memory,
    /// There, at the first byte after which the bytes so far begin no list of tokens, or at the end.
    #[error("no token")]
    At(Place),
}

impl From<Memory> for LexFault {
    ghost from_gives = { λ _ fault. fault ≡ Wanting };

    fn from(_: Memory) -> LexFault {
        LexFault::Memory
    }
}

impl LexFault {
    fn refused(self, alloc: Global, file: FileKind) -> Refused
        ensures { result ≡ refused_as file self }
    {
        match self {
            LexFault::Memory => Refused::Memory,
            LexFault::At(place) => Refused::Refusal(Refusal {
                file,
                place: Some(place),
                name: FaultName::LexFault,
                words: Text::from(Vec::new(alloc)),
            }),
        }
    }
}

/// The tokens, each with the spot at which it begins.
fn cut(alloc: Global, source: &[u8]) -> Result<List<Token>, LexFault>
    requires few { length source.now < 2 ^ 32 }
    ensures { Gives result (cut_of source.now) }
{
    let mut tokens = List::new(alloc);
    let mut rest = source;
    let mut spot = Spot::first();
    'text: while !rest.is_empty() {
        let length = match next_step(rest) {
            Step::Token(kind, length) => {
                tokens.push(spot.token(kind, length))?;
                length
            }
            Step::Skip(length) => length,
            Step::Bad(length) => return Err(LexFault::At(spot.after(&rest[..length]).place)),
        };
        spot = spot.after(&rest[..length]);
        rest = &rest[length..];
    }
    Ok(tokens)
}

/// The tokens of a text, in order.
///
/// Blanks and comments stand between tokens. The longest token that fits is taken; but a run of
/// letters, digits and `_` that begins with a letter is never divided, and neither is a run of
/// digits where no date begins.
///
/// A text that has no list of tokens is refused as LexFault, without words, at the first byte after
/// which the bytes so far begin none, or one past the end where the text ends inside a token.
pub fn tokens(alloc: Global, file: FileKind, bytes: &[u8]) -> Result<List<Token>, Refused>
    requires few { length bytes.now < 2 ^ 32 }
    // The text has the tokens that are answered.
    ensures found { IfOk result (λ tokens. HasText tokens bytes.now) }
    // Where it has some, they are answered, unless memory is wanting.
    ensures only { (tokens : List AToken) → HasText tokens bytes.now → IsReadAs result tokens }
    // It is refused where its fault stands.
    ensures refusal { IfErr result (IsLexFault file bytes.now) }
    // A text has at most one fault.
    ensures one_refusal { (n m : ℕ) → IsFaultAt bytes.now n → IsFaultAt bytes.now m → n ≡ m }
    // A text has tokens or a fault.
    ensures either { ((tokens : List AToken) × HasText tokens bytes.now) ⊎ ((n : ℕ) × IsFaultAt bytes.now n) }
    // A text has at most one list of tokens.
    ensures one { (tokens others : List AToken) → HasText tokens bytes.now → HasText others bytes.now
        → tokens ≡ others }
{
    cut(alloc, bytes).map_err(|fault| fault.refused(alloc, file))
}
