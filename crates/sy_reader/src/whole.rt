ghost use Rattle.std.specs.Prelude.{◌≡◌, ◌<◌, ◌^◌, length, IfOk};
ghost use Rattle.sy_lex.specs.Lexemes.{lexemes_of};
ghost use Rattle.sy_reader.specs.Machine.Parsing.{Answers, syntax_fault_of};
ghost use Rattle.sy_reader.specs.Machine.Reading.{Gives, whole_at};

use crate::production::Production;
use crate::{Fault, Reader};
use std::alloc::Global;
use sy_base::{FaultName, FileKind, Memory, Refusal, Refused, Text};
use sy_lex::{Token, end_place};

/// Reads one, and that no lexeme is left behind it.
fn all<T: Production>(reader: &mut Reader<'_>) -> Result<T, Fault>
    ensures { Gives result (whole_at T.reading reader.old) }
{
    let tree = T::read(reader)?;
    if reader.left() > 0 {
        return Err(reader.fault());
    }
    Ok(tree)
}

/// The refusal where so many of the tokens are left.
fn syntax_fault(
    alloc: Global,
    file: FileKind,
    source: &[u8],
    tokens: &[Token],
    left: usize,
) -> Result<Refusal, Memory>
    requires few { length source.now < 2 ^ 32 }
    ensures { IfOk result (λ refusal. refusal ≡ syntax_fault_of file source.now tokens.now left) }
{
    let (place, words) = match tokens.get(tokens.len().saturating_sub(left)) {
        Some(token) => (token.place, token.text(source)),
        None => (end_place(source), &[][..]),
    };
    Ok(Refusal {
        file,
        place: Some(place),
        name: FaultName::SyntaxFault,
        words: Text::new(alloc, words)?,
    })
}

/// Reads the tokens of a file, all of them.
pub fn parse<T: Production>(
    alloc: Global,
    file: FileKind,
    source: &[u8],
    tokens: &[Token],
) -> Result<T, Refused>
    requires few { length source.now < 2 ^ 32 }
    ensures { Answers file source.now tokens.now result (whole_at T.reading (lexemes_of source.now tokens.now)) }
{
    let mut reader = Reader::new(alloc, source, tokens);
    match all(&mut reader) {
        Ok(tree) => Ok(tree),
        Err(Fault::Memory) => Err(Refused::Memory),
        Err(Fault::Syntax(left)) => Err(Refused::Refusal(syntax_fault(
            alloc, file, source, tokens, left,
        )?)),
    }
}
