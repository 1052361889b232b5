ghost use Rattle.std.specs.Prelude.{◌≡◌, ◌<◌, ◌≤◌, length, OnOk};
ghost use Rattle.sy_reader.specs.Machine.Reading.{Reads};
ghost use Rattle.sy_tree.specs.Machine.ReadingTerms as reading;
ghost use Rattle.sy_tree.specs.Machine.ReadingTerms.{event_at, guard_at, guards_at, situation_at};

use crate::{CmpTree, EventTree, GuardTree, RhsTree, SituationTree, TargetTree};
use sy_base::List;
use sy_lex::{Keyword, Sign, TokenKind};
use sy_reader::{Fault, Production, Reader, between, listed};
use sy_words::Kind;

impl Production for GuardTree {
    ghost reading = { guard_at };

    #[tactic(auto, unfolding(crate::specs::Machine::ReadingTerms::guard_at))]
    fn read(reader: &mut Reader<'_>) -> Result<GuardTree, Fault> {
        let name = reader.name()?;
        let cmp = CmpTree::read(reader)?;
        let value = RhsTree::read(reader)?;
        Ok(GuardTree { name, cmp, value })
    }
}

/// Reads the guards of an event, if brackets are there.
fn guards(reader: &mut Reader<'_>) -> Result<List<GuardTree>, Fault>
    ensures gives { Reads result reader.old reader.new guards_at }
    ensures within { OnOk result (length reader.new ≤ length reader.old) }
{
    if !reader.begins(TokenKind::Sign(Sign::OpenBracket)) {
        return Ok(List::new(reader.alloc()));
    }
    reader.sign(Sign::OpenBracket)?;
    let guards = listed(reader)?;
    reader.sign(Sign::CloseBracket)?;
    Ok(guards)
}

/// Reads a declared event.
fn declared(reader: &mut Reader<'_>) -> Result<EventTree, Fault>
    ensures gives { Reads result reader.old reader.new reading.declared_at }
    ensures shorter { OnOk result (length reader.new < length reader.old) }
{
    let name = reader.name()?;
    let guards = guards(reader)?;
    Ok(EventTree::Declared(name, guards))
}

/// The kind of internal event that a reserved word names.
fn kind_of(keyword: Keyword) -> Option<Kind>
    ensures { result ≡ reading.kind_of_word keyword }
{
    match keyword {
        Keyword::Exerted => Some(Kind::Exerted),
        Keyword::Triggered => Some(Kind::Triggered),
        Keyword::Activated => Some(Kind::Activated),
        Keyword::Resumed => Some(Kind::Resumed),
        Keyword::Suspended => Some(Kind::Suspended),
        Keyword::Fulfilled => Some(Kind::Fulfilled),
        Keyword::Violated => Some(Kind::Violated),
        Keyword::Expired => Some(Kind::Expired),
        Keyword::Discharged => Some(Kind::Discharged),
        Keyword::Terminated => Some(Kind::Terminated),
        Keyword::Completed => Some(Kind::Completed),
        _ => None,
    }
}

/// The kind that the next lexeme names, with its word.
fn next_kind(reader: &Reader<'_>) -> Option<(Kind, Keyword)>
    ensures { result ≡ reading.next_kind reader.now }
{
    let Some(TokenKind::Reserved(keyword)) = reader.next() else {
        return None;
    };
    Some((kind_of(keyword)?, keyword))
}

impl Production for EventTree {
    ghost reading = { event_at };

    #[tactic(auto, unfolding(crate::specs::Machine::ReadingTerms::event_at))]
    fn read(reader: &mut Reader<'_>) -> Result<EventTree, Fault> {
        let Some((kind, keyword)) = next_kind(reader) else {
            return declared(reader);
        };
        let place = reader.keyword(keyword)?;
        let target = between(reader, Sign::Open, Sign::Close)?;
        Ok(EventTree::Internal(kind, place, target))
    }
}

/// Reads `=` or `!=`, and says whether it was the first.
fn equality(reader: &mut Reader<'_>) -> Result<bool, Fault>
    ensures gives { Reads result reader.old reader.new reading.equality_at }
    ensures shorter { OnOk result (length reader.new < length reader.old) }
{
    if reader.begins(TokenKind::Sign(Sign::NotEqual)) {
        reader.sign(Sign::NotEqual)?;
        return Ok(false);
    }
    reader.sign(Sign::Equal)?;
    Ok(true)
}

impl Production for SituationTree {
    ghost reading = { situation_at };

    #[tactic(auto, unfolding(crate::specs::Machine::ReadingTerms::situation_at))]
    fn read(reader: &mut Reader<'_>) -> Result<SituationTree, Fault> {
        let place = reader.keyword(Keyword::State)?;
        let target = between(reader, Sign::Open, Sign::Close)?;
        let equal = equality(reader)?;
        let state = reader.name()?;
        Ok(SituationTree {
            place,
            target,
            equal,
            state,
        })
    }
}
