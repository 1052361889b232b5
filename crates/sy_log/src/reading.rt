ghost use Rattle.std.specs.Prelude.{◌≡◌, ◌<◌, ◌≤◌, length, OnOk};
ghost use Rattle.sy_reader.specs.Machine.Reading.{Reads};
ghost use Rattle.sy_log.specs.Machine.ReadingLine as reading;
ghost use Rattle.sy_log.specs.Machine.ReadingLine.{fields_at, line_at, what_at};

use crate::tree::{LineTree, WhatTree};
use sy_base::List;
use sy_binding::FieldTree;
use sy_lex::{Keyword, Sign, TokenKind};
use sy_reader::{Fault, Production, Reader, listed};

/// Reads the values of attributes, if brackets are there.
fn fields(reader: &mut Reader<'_>) -> Result<List<FieldTree>, Fault>
    ensures gives { Reads result reader.old reader.new fields_at }
    ensures within { OnOk result (length reader.new ≤ length reader.old) }
{
    if !reader.begins(TokenKind::Sign(Sign::OpenBracket)) {
        return Ok(List::new(reader.alloc()));
    }
    reader.sign(Sign::OpenBracket)?;
    let fields = listed(reader)?;
    reader.sign(Sign::CloseBracket)?;
    Ok(fields)
}

/// Reads what happens, behind the word for it.
fn happens(reader: &mut Reader<'_>) -> Result<WhatTree, Fault>
    ensures gives { Reads result reader.old reader.new reading.happens_at }
    ensures shorter { OnOk result (length reader.new < length reader.old) }
{
    reader.keyword(Keyword::Happens)?;
    let name = reader.name()?;
    let fields = fields(reader)?;
    Ok(WhatTree::Happens(name, fields))
}

/// Reads which power is exerted, behind the word for it.
fn exert(reader: &mut Reader<'_>) -> Result<WhatTree, Fault>
    ensures gives { Reads result reader.old reader.new reading.exert_at }
    ensures shorter { OnOk result (length reader.new < length reader.old) }
{
    reader.keyword(Keyword::Exert)?;
    Ok(WhatTree::Exert(reader.name()?))
}

impl Production for WhatTree {
    ghost reading = { what_at };

    #[tactic(auto, unfolding(crate::specs::Machine::ReadingLine::what_at))]
    fn read(reader: &mut Reader<'_>) -> Result<WhatTree, Fault> {
        if reader.begins(TokenKind::Reserved(Keyword::Exert)) {
            return exert(reader);
        }
        happens(reader)
    }
}

/// Reads a line that tells what happens.
fn at(reader: &mut Reader<'_>) -> Result<LineTree, Fault>
    ensures gives { Reads result reader.old reader.new reading.happening_at }
    ensures shorter { OnOk result (length reader.new < length reader.old) }
{
    reader.keyword(Keyword::At)?;
    let date = reader.token(TokenKind::Date)?;
    let what = WhatTree::read(reader)?;
    Ok(LineTree::At(date, what))
}

/// Reads a line that asks for a report.
fn report(reader: &mut Reader<'_>) -> Result<LineTree, Fault>
    ensures gives { Reads result reader.old reader.new reading.report_at }
    ensures shorter { OnOk result (length reader.new < length reader.old) }
{
    reader.keyword(Keyword::Report)?;
    Ok(LineTree::Report(reader.token(TokenKind::Date)?))
}

impl Production for LineTree {
    ghost reading = { line_at };

    #[tactic(auto, unfolding(crate::specs::Machine::ReadingLine::line_at))]
    fn read(reader: &mut Reader<'_>) -> Result<LineTree, Fault> {
        if reader.begins(TokenKind::Reserved(Keyword::Report)) {
            return report(reader);
        }
        at(reader)
    }
}
