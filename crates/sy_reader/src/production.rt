ghost use Rattle.std.specs.Prelude.{◌≡◌, ◌≤◌, ◌<◌, List, length, OnOk};
ghost use Rattle.sy_lex.specs.Lexemes.{Lexeme as ALexeme};
ghost use Rattle.sy_reader.specs.Machine.Reading as spec;
ghost use Rattle.sy_reader.specs.Machine.Reading.{Reads, all_behind, and_more, before_at, behind_at, between_at, each_behind, listed_at, maybe_listed_at};

use crate::{Fault, Reader};
use sy_base::List;
use sy_lex::{Sign, TokenKind, Written};

/// What one rule of the grammar spells, as it is read.
pub trait Production: Drop {
    /// How it is read.
    ghost reading: { List ALexeme → spec.Read Self };

    /// Reads one from the front of what is left.
    fn read(reader: &mut Reader<'_>) -> Result<Self, Fault>
        ensures gives { Reads result reader.old reader.new reading }
        ensures shorter { OnOk result (length reader.new < length reader.old) };
}

impl Production for Written {
    ghost reading = { spec.name_at };

    fn read(reader: &mut Reader<'_>) -> Result<Written, Fault> {
        reader.name()
    }
}

/// Reads a sign, and what stands behind it.
pub fn behind<T: Production>(reader: &mut Reader<'_>, sign: Sign) -> Result<T, Fault>
    ensures gives { Reads result reader.old reader.new (behind_at sign T.reading) }
    ensures shorter { OnOk result (length reader.new < length reader.old) }
{
    reader.sign(sign)?;
    T::read(reader)
}

/// Reads those behind a sign, at most so many, and puts them at the end of the list.
fn more<T: Production>(
    reader: &mut Reader<'_>,
    mut items: List<T>,
    sign: Sign,
    most: usize,
) -> Result<List<T>, Fault>
    ensures gives { Reads result reader.old reader.new (and_more items (each_behind sign T.reading most)) }
    ensures within { OnOk result (length reader.new ≤ length reader.old) }
{
    let mut left = most;
    'item: while left > 0 && reader.begins(TokenKind::Sign(sign)) {
        items.push(behind(reader, sign)?)?;
        left -= 1;
    }
    Ok(items)
}

/// Reads those behind a sign, at most so many.
pub fn each_behind<T: Production>(
    reader: &mut Reader<'_>,
    sign: Sign,
    most: usize,
) -> Result<List<T>, Fault>
    ensures gives { Reads result reader.old reader.new (each_behind sign T.reading most) }
    ensures within { OnOk result (length reader.new ≤ length reader.old) }
{
    more(reader, List::new(reader.alloc()), sign, most)
}

/// Reads all those behind a sign.
pub fn all_behind<T: Production>(reader: &mut Reader<'_>, sign: Sign) -> Result<List<T>, Fault>
    ensures gives { Reads result reader.old reader.new (all_behind sign T.reading) }
    ensures within { OnOk result (length reader.new ≤ length reader.old) }
{
    let left = reader.left();
    each_behind(reader, sign, left)
}

/// Reads one, and those behind commas.
pub fn listed<T: Production>(reader: &mut Reader<'_>) -> Result<List<T>, Fault>
    ensures gives { Reads result reader.old reader.new (listed_at T.reading) }
    ensures shorter { OnOk result (length reader.new < length reader.old) }
{
    let mut items = List::new(reader.alloc());
    items.push(T::read(reader)?)?;
    let left = reader.left();
    more(reader, items, Sign::Comma, left)
}

/// Reads a list with commas, or nothing where the sign stands that ends it.
pub fn maybe_listed<T: Production>(reader: &mut Reader<'_>, end: Sign) -> Result<List<T>, Fault>
    ensures gives { Reads result reader.old reader.new (maybe_listed_at end T.reading) }
    ensures within { OnOk result (length reader.new ≤ length reader.old) }
{
    if reader.begins(TokenKind::Sign(end)) {
        return Ok(List::new(reader.alloc()));
    }
    listed(reader)
}

/// Reads one, and the sign behind it.
pub fn before<T: Production>(reader: &mut Reader<'_>, sign: Sign) -> Result<T, Fault>
    ensures gives { Reads result reader.old reader.new (before_at T.reading sign) }
    ensures shorter { OnOk result (length reader.new < length reader.old) }
{
    let item = T::read(reader)?;
    reader.sign(sign)?;
    Ok(item)
}

/// Reads one between two signs.
pub fn between<T: Production>(
    reader: &mut Reader<'_>,
    opening: Sign,
    closing: Sign,
) -> Result<T, Fault>
    ensures gives { Reads result reader.old reader.new (between_at opening T.reading closing) }
    ensures shorter { OnOk result (length reader.new < length reader.old) }
{
    reader.sign(opening)?;
    before(reader, closing)
}
