ghost use Rattle.std.specs.Prelude.{◌≡◌, ◌<◌, ◌^◌, length, IfOk, Result};
ghost use Rattle.sy_base.specs.declared.refusal.FaultName.{FaultName as AName};
ghost use Rattle.sy_lex.specs.Lexemes.{lexemes_of};
ghost use Rattle.sy_reader.specs.Machine.Reading.{whole_at};
ghost use Rattle.sy_log.specs.Machine.ReadingLine.{line_at};
ghost use Rattle.sy_log.specs.declared.read.Entry.{Entry as AnEntry};
ghost use Rattle.sy_log.specs.Entries.{HasFewNames, IsAnswer, IsEntry, IsEntryOf};
ghost use Rattle.sy_log.specs.Machine.Answering as answering;
ghost use Rattle.sy_log.specs.Machine.Answering.{IsTold, Tells};

use crate::fault::LineFault;
use crate::told::entry_of;
use crate::tree::LineTree;
use std::alloc::Global;
use sy_base::{FaultName, FileKind, Point, Refused};
use sy_core::{Deed, Happening};
use sy_lex::{Token, tokens};
use sy_reader::parse;
use sy_report::of_line;

/// What a line of a log says.
#[derive(Debug, Drop)]
pub enum Entry {
    /// Nothing.
    Blank,
    /// That something happened.
    Noted(Happening),
    /// That the report of a date is asked for.
    Report(Point),
}

/// The tree that tokens spell.
fn tree_of(alloc: Global, bytes: &[u8], tokens: &[Token]) -> Result<LineTree, LineFault>
    requires few { length bytes.now < 2 ^ 32 }
    ensures { Tells result (answering.tree_read (whole_at line_at (lexemes_of bytes.now tokens.now))) }
{
    match parse(alloc, FileKind::Log, bytes, tokens) {
        Ok(tree) => Ok(tree),
        Err(Refused::Memory) => Err(LineFault::Memory),
        Err(Refused::Refusal(_)) => Err(LineFault::Fault(FaultName::BadToken)),
    }
}

/// What the tokens of a line say, or their first fault.
fn entry_of_tokens(
    alloc: Global,
    deed: &Deed,
    bytes: &[u8],
    tokens: &[Token],
) -> Result<Entry, LineFault>
    requires few { length bytes.now < 2 ^ 32 }
    requires few_names { HasFewNames deed.now }
    ensures { Tells result (answering.entry_of_tokens deed.now bytes.now tokens.now) }
{
    if tokens.is_empty() {
        return Ok(Entry::Blank);
    }
    let line = tree_of(alloc, bytes, tokens)?;
    entry_of(alloc, deed, &line)
}

/// What a line says, or its first fault.
fn entry_told(alloc: Global, deed: &Deed, bytes: &[u8]) -> Result<Entry, LineFault>
    requires few { length bytes.now < 2 ^ 32 }
    requires few_names { HasFewNames deed.now }
    ensures { IsTold deed.now bytes.now result }
{
    match tokens(alloc, FileKind::Log, bytes) {
        Ok(tokens) => entry_of_tokens(alloc, deed, bytes, tokens.items()),
        Err(Refused::Memory) => Err(LineFault::Memory),
        Err(Refused::Refusal(_)) => Err(LineFault::Fault(FaultName::BadToken)),
    }
}

/// What the line with a number says under a deed.
///
/// It is refused for the first of its faults: `BadToken` where it is no line, `UnknownName` for an
/// event or a power that isn't declared, `WrongValues` for an attribute that the event doesn't have,
/// that is missing or repeated, or whose value isn't of its kind or range, `BadDate` for a date with
/// a fault in the unit, and `TooEarly` for what happens before start. The refusal stands at column 0
/// of the line, without words.
pub fn read_line(alloc: Global, deed: &Deed, number: u64, bytes: &[u8]) -> Result<Entry, Refused>
    requires few { length bytes.now < 2 ^ 32 }
    requires few_names { HasFewNames deed.now }
    ensures answer { IsAnswer deed.now number bytes.now result }
    ensures of_deed { IfOk result (IsEntryOf deed.now) }
    // A line says one thing at most.
    ensures one { (entry other : Result AnEntry AName) → IsEntry deed.now bytes.now entry
        → IsEntry deed.now bytes.now other → entry ≡ other }
{
    match entry_told(alloc, deed, bytes) {
        Ok(entry) => Ok(entry),
        Err(LineFault::Memory) => Err(Refused::Memory),
        Err(LineFault::Fault(name)) => {
            Err(Refused::Refusal(of_line(alloc, FileKind::Log, number, name)))
        }
    }
}
