ghost use Rattle.std.specs.Prelude.{◌≡◌, ◌<◌, ◌≤◌, [], ◌∷◌, length, IfOk, OnOk};
ghost use Rattle.sy_lex.specs.declared.keyword.Keyword.TheVariants as words;
ghost use Rattle.sy_tree.specs.declared.proposition.PropTree.TheVariants as props;
ghost use Rattle.sy_reader.specs.Machine.Reading.{Reads, and_more};
ghost use Rattle.sy_tree.specs.Machine.ReadingPropositions as reading;
ghost use Rattle.sy_tree.specs.Machine.ReadingPropositions.{atom_at, comparison_at, conj_of_at, constant_at, happens_at, happens_within_at, holds_at, links_at, neg_at, neg_of_at, occurs_at, prop_of_at};

use crate::{CmpTree, DateTree, EventTree, First, PropTree, RhsTree, SituationTree, TermTree};
use sqlite_items::{Boxed, Items};
use std::alloc::Global;
use sy_base::Memory;
use sy_lex::{Keyword, Sign, TokenKind};
use sy_reader::{Fault, Lexeme, Production, Reader, before, between};

/// How deep a proposition may be nested: each `not` and each bracket opens a level.
const LEVEL_LIMIT: u32 = 32;

/// The lexeme as the first token of a proposition without brackets round it.
fn first(alloc: Global, lexeme: &Lexeme<'_>) -> Result<First, Memory>
    ensures { IfOk result (λ first. first ≡ reading.first_of lexeme.now) }
{
    Ok(First {
        token: lexeme.written(alloc)?,
        bracket: None,
    })
}

/// Reads `true` or `false`.
#[tactic(auto, unfolding(crate::specs::Machine::ReadingPropositions::constant_at, crate::specs::Machine::ReadingPropositions::begins_at))]
fn constant(reader: &mut Reader<'_>, keyword: Keyword, value: bool) -> Result<PropTree, Fault>
    ensures gives { Reads result reader.old reader.new (constant_at keyword value) }
    ensures shorter { OnOk result (length reader.new < length reader.old) }
{
    let token = reader.ahead()?;
    reader.keyword(keyword)?;
    Ok(PropTree::Const(value, first(reader.alloc(), &token)?))
}

/// Reads a comparison.
#[tactic(auto, unfolding(crate::specs::Machine::ReadingPropositions::comparison_at, crate::specs::Machine::ReadingPropositions::begins_at))]
fn comparison(reader: &mut Reader<'_>) -> Result<PropTree, Fault>
    ensures gives { Reads result reader.old reader.new comparison_at }
    ensures shorter { OnOk result (length reader.new < length reader.old) }
{
    let token = reader.ahead()?;
    let left = TermTree::read(reader)?;
    let cmp = CmpTree::read(reader)?;
    let right = RhsTree::read(reader)?;
    Ok(PropTree::Compare(left, cmp, right, first(reader.alloc(), &token)?))
}

/// Reads that an event happened.
#[tactic(auto, unfolding(crate::specs::Machine::ReadingPropositions::happens_at, crate::specs::Machine::ReadingPropositions::begins_at))]
fn happens(reader: &mut Reader<'_>) -> Result<PropTree, Fault>
    ensures gives { Reads result reader.old reader.new happens_at }
    ensures shorter { OnOk result (length reader.new < length reader.old) }
{
    let token = reader.ahead()?;
    reader.keyword(Keyword::Happens)?;
    let event = between(reader, Sign::Open, Sign::Close)?;
    Ok(PropTree::Happens(event, first(reader.alloc(), &token)?))
}

/// Reads an event and a date, with a comma between.
#[tactic(auto, unfolding(crate::specs::Machine::ReadingPropositions::event_and_date_at))]
fn event_and_date(reader: &mut Reader<'_>) -> Result<(EventTree, DateTree), Fault>
    ensures gives { Reads result reader.old reader.new reading.event_and_date_at }
    ensures shorter { OnOk result (length reader.new < length reader.old) }
{
    let event = before(reader, Sign::Comma)?;
    let date = DateTree::read(reader)?;
    Ok((event, date))
}

/// Reads that an event happened before a date.
#[tactic(auto, unfolding(crate::specs::Machine::ReadingPropositions::dated_at, crate::specs::Machine::ReadingPropositions::begins_at))]
fn happens_before(reader: &mut Reader<'_>) -> Result<PropTree, Fault>
    ensures gives { Reads result reader.old reader.new (reading.dated_at words.HappensBefore props.Before) }
    ensures shorter { OnOk result (length reader.new < length reader.old) }
{
    let token = reader.ahead()?;
    reader.keyword(Keyword::HappensBefore)?;
    reader.sign(Sign::Open)?;
    let (event, date) = event_and_date(reader)?;
    reader.sign(Sign::Close)?;
    Ok(PropTree::Before(event, date, first(reader.alloc(), &token)?))
}

/// Reads that an event happened after a date.
#[tactic(auto, unfolding(crate::specs::Machine::ReadingPropositions::dated_at, crate::specs::Machine::ReadingPropositions::begins_at))]
fn happens_after(reader: &mut Reader<'_>) -> Result<PropTree, Fault>
    ensures gives { Reads result reader.old reader.new (reading.dated_at words.HappensAfter props.After) }
    ensures shorter { OnOk result (length reader.new < length reader.old) }
{
    let token = reader.ahead()?;
    reader.keyword(Keyword::HappensAfter)?;
    reader.sign(Sign::Open)?;
    let (event, date) = event_and_date(reader)?;
    reader.sign(Sign::Close)?;
    Ok(PropTree::After(event, date, first(reader.alloc(), &token)?))
}

/// Reads two dates, with a comma between.
#[tactic(auto, unfolding(crate::specs::Machine::ReadingPropositions::two_dates_at))]
fn two_dates(reader: &mut Reader<'_>) -> Result<(DateTree, DateTree), Fault>
    ensures gives { Reads result reader.old reader.new reading.two_dates_at }
    ensures shorter { OnOk result (length reader.new < length reader.old) }
{
    let from = before(reader, Sign::Comma)?;
    let to = DateTree::read(reader)?;
    Ok((from, to))
}

/// Reads that an event happened from one date on and before another.
#[tactic(auto, unfolding(crate::specs::Machine::ReadingPropositions::happens_within_at, crate::specs::Machine::ReadingPropositions::begins_at))]
fn happens_within(reader: &mut Reader<'_>) -> Result<PropTree, Fault>
    ensures gives { Reads result reader.old reader.new happens_within_at }
    ensures shorter { OnOk result (length reader.new < length reader.old) }
{
    let token = reader.ahead()?;
    reader.keyword(Keyword::HappensWithin)?;
    reader.sign(Sign::Open)?;
    let event = before(reader, Sign::Comma)?;
    let (from, to) = two_dates(reader)?;
    reader.sign(Sign::Close)?;
    Ok(PropTree::Within(event, from, to, first(reader.alloc(), &token)?))
}

/// Reads that a situation occurs from one date on and before another.
#[tactic(auto, unfolding(crate::specs::Machine::ReadingPropositions::occurs_at, crate::specs::Machine::ReadingPropositions::begins_at))]
fn occurs(reader: &mut Reader<'_>) -> Result<PropTree, Fault>
    ensures gives { Reads result reader.old reader.new occurs_at }
    ensures shorter { OnOk result (length reader.new < length reader.old) }
{
    let token = reader.ahead()?;
    reader.keyword(Keyword::Occurs)?;
    reader.sign(Sign::Open)?;
    let situation = before(reader, Sign::Comma)?;
    let (from, to) = two_dates(reader)?;
    reader.sign(Sign::Close)?;
    Ok(PropTree::Occurs(situation, from, to, first(reader.alloc(), &token)?))
}

/// Reads that a situation holds.
#[tactic(auto, unfolding(crate::specs::Machine::ReadingPropositions::holds_at, crate::specs::Machine::ReadingPropositions::begins_at))]
fn holds(reader: &mut Reader<'_>) -> Result<PropTree, Fault>
    ensures gives { Reads result reader.old reader.new holds_at }
    ensures shorter { OnOk result (length reader.new < length reader.old) }
{
    let token = reader.ahead()?;
    reader.keyword(Keyword::Holds)?;
    let situation = between(reader, Sign::Open, Sign::Close)?;
    Ok(PropTree::Holds(situation, first(reader.alloc(), &token)?))
}

/// Reads an atom without brackets.
#[tactic(auto, unfolding(crate::specs::Machine::ReadingPropositions::atom_at))]
fn atom(reader: &mut Reader<'_>) -> Result<PropTree, Fault>
    ensures gives { Reads result reader.old reader.new atom_at }
    ensures shorter { OnOk result (length reader.new < length reader.old) }
{
    match reader.next() {
        Some(TokenKind::Reserved(Keyword::True)) => constant(reader, Keyword::True, true),
        Some(TokenKind::Reserved(Keyword::False)) => constant(reader, Keyword::False, false),
        Some(TokenKind::Reserved(Keyword::Happens)) => happens(reader),
        Some(TokenKind::Reserved(Keyword::HappensBefore)) => happens_before(reader),
        Some(TokenKind::Reserved(Keyword::HappensAfter)) => happens_after(reader),
        Some(TokenKind::Reserved(Keyword::HappensWithin)) => happens_within(reader),
        Some(TokenKind::Reserved(Keyword::Occurs)) => occurs(reader),
        Some(TokenKind::Reserved(Keyword::Holds)) => holds(reader),
        Some(_) => comparison(reader),
        None => Err(reader.fault()),
    }
}

/// Reads a negation, an atom, or a proposition in brackets, within so many levels.
#[cycle(nesting)]
fn neg(reader: &mut Reader<'_>, levels: u32) -> Result<PropTree, Fault>
    ensures gives { Reads result reader.old reader.new (neg_at levels) }
    ensures shorter { OnOk result (length reader.new < length reader.old) }
{
    if levels == 0 {
        atom(reader)
    } else {
        nested(reader, levels - 1)
    }
}

/// The same, where what is inside has so many levels.
#[cycle(nesting)]
fn nested(reader: &mut Reader<'_>, levels: u32) -> Result<PropTree, Fault>
    ensures gives { Reads result reader.old reader.new (neg_of_at (neg_at levels)) }
    ensures shorter { OnOk result (length reader.new < length reader.old) }
{
    match reader.next() {
        Some(TokenKind::Reserved(Keyword::Not)) => negation(reader, levels),
        Some(TokenKind::Sign(Sign::Open)) => brackets(reader, levels),
        Some(_) => atom(reader),
        None => Err(reader.fault()),
    }
}

/// Reads a negation.
#[cycle(nesting)]
#[tactic(auto, unfolding(crate::specs::Machine::ReadingPropositions::begins_at))]
fn negation(reader: &mut Reader<'_>, levels: u32) -> Result<PropTree, Fault>
    ensures gives { Reads result reader.old reader.new (reading.negation_at (neg_at levels)) }
    ensures shorter { OnOk result (length reader.new < length reader.old) }
{
    let token = reader.ahead()?;
    reader.keyword(Keyword::Not)?;
    let part = neg(reader, levels)?;
    let alloc = reader.alloc();
    Ok(PropTree::Not(Boxed::new(alloc, part)?, first(alloc, &token)?))
}

/// Reads a proposition in brackets.
#[cycle(nesting)]
fn brackets(reader: &mut Reader<'_>, levels: u32) -> Result<PropTree, Fault>
    ensures gives { Reads result reader.old reader.new (reading.brackets_at (neg_at levels)) }
    ensures shorter { OnOk result (length reader.new < length reader.old) }
{
    let place = reader.sign(Sign::Open)?;
    let inside = prop(reader, levels)?;
    reader.sign(Sign::Close)?;
    Ok(inside.in_brackets(place))
}

/// Reads an `and`, and what stands behind it.
#[cycle(nesting)]
fn and_neg(reader: &mut Reader<'_>, levels: u32) -> Result<PropTree, Fault>
    ensures gives { Reads result reader.old reader.new (reading.link_at words.And (neg_at levels)) }
    ensures shorter { OnOk result (length reader.new < length reader.old) }
{
    reader.keyword(Keyword::And)?;
    neg(reader, levels)
}

/// Reads what stands behind each `and`, and puts it behind the first part.
#[cycle(nesting)]
fn more_negs(reader: &mut Reader<'_>, part: PropTree, levels: u32) -> Result<Items<PropTree>, Fault>
    ensures gives { Reads result reader.old reader.new (and_more (part ∷ []) (links_at words.And (neg_at levels))) }
    ensures within { OnOk result (length reader.new ≤ length reader.old) }
{
    let mut parts = Items::new(reader.alloc());
    parts.push(part)?;
    'part: while reader.begins(TokenKind::Reserved(Keyword::And)) {
        parts.push(and_neg(reader, levels)?)?;
    }
    Ok(parts)
}

/// Reads what an `and` joins.
#[cycle(nesting)]
fn conj(reader: &mut Reader<'_>, levels: u32) -> Result<PropTree, Fault>
    ensures gives { Reads result reader.old reader.new (conj_of_at (neg_at levels)) }
    ensures shorter { OnOk result (length reader.new < length reader.old) }
{
    let token = reader.ahead()?;
    let part = neg(reader, levels)?;
    if !reader.begins(TokenKind::Reserved(Keyword::And)) {
        return Ok(part);
    }
    let parts = more_negs(reader, part, levels)?;
    Ok(PropTree::All(parts, first(reader.alloc(), &token)?))
}

/// Reads an `or`, and what stands behind it.
#[cycle(nesting)]
fn or_conj(reader: &mut Reader<'_>, levels: u32) -> Result<PropTree, Fault>
    ensures gives { Reads result reader.old reader.new (reading.link_at words.Or (conj_of_at (neg_at levels))) }
    ensures shorter { OnOk result (length reader.new < length reader.old) }
{
    reader.keyword(Keyword::Or)?;
    conj(reader, levels)
}

/// Reads what stands behind each `or`, and puts it behind the first part.
#[cycle(nesting)]
fn more_conjs(
    reader: &mut Reader<'_>,
    part: PropTree,
    levels: u32,
) -> Result<Items<PropTree>, Fault>
    ensures gives { Reads result reader.old reader.new (and_more (part ∷ []) (links_at words.Or (conj_of_at (neg_at levels)))) }
    ensures within { OnOk result (length reader.new ≤ length reader.old) }
{
    let mut parts = Items::new(reader.alloc());
    parts.push(part)?;
    'part: while reader.begins(TokenKind::Reserved(Keyword::Or)) {
        parts.push(or_conj(reader, levels)?)?;
    }
    Ok(parts)
}

/// Reads what an `or` joins.
#[cycle(nesting)]
fn prop(reader: &mut Reader<'_>, levels: u32) -> Result<PropTree, Fault>
    ensures gives { Reads result reader.old reader.new (prop_of_at (neg_at levels)) }
    ensures shorter { OnOk result (length reader.new < length reader.old) }
{
    let token = reader.ahead()?;
    let part = conj(reader, levels)?;
    if !reader.begins(TokenKind::Reserved(Keyword::Or)) {
        return Ok(part);
    }
    let parts = more_conjs(reader, part, levels)?;
    Ok(PropTree::Any(parts, first(reader.alloc(), &token)?))
}

impl Production for PropTree {
    ghost reading = { reading.prop_at };

    #[tactic(auto, unfolding(crate::specs::Machine::ReadingPropositions::prop_at))]
    fn read(reader: &mut Reader<'_>) -> Result<PropTree, Fault> {
        prop(reader, LEVEL_LIMIT)
    }
}
