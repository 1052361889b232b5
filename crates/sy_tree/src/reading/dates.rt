ghost use Rattle.std.specs.Prelude.{◌≡◌, ◌<◌, length, OnOk};
ghost use Rattle.sy_reader.specs.Machine.Reading.{Reads};
ghost use Rattle.sy_tree.specs.Machine.ReadingTerms as reading;
ghost use Rattle.sy_tree.specs.Machine.ReadingTerms.{date_at, duration_at, measure_at, moment_at};

use crate::{CountTree, DateTree, DurationTree, EventTree, MeasureTree, MomentTree, PathTree};
use sy_base::Measure;
use sy_lex::{Keyword, Sign, TokenKind};
use sy_reader::{Fault, Production, Reader, between, each_behind};

/// How many durations a date term may have.
const DURATION_LIMIT: usize = 8;

/// The measure that a reserved word names.
#[tactic(auto, unfolding(crate::specs::Machine::ReadingTerms::measure_of_word))]
fn measure(keyword: Keyword) -> Option<Measure>
    ensures { result ≡ reading.measure_of_word keyword }
{
    match keyword {
        Keyword::Minute | Keyword::Minutes => Some(Measure::Minutes),
        Keyword::Hour | Keyword::Hours => Some(Measure::Hours),
        Keyword::Day | Keyword::Days => Some(Measure::Days),
        Keyword::Week | Keyword::Weeks => Some(Measure::Weeks),
        _ => None,
    }
}

impl Production for MeasureTree {
    ghost reading = { measure_at };

    #[tactic(auto, unfolding(crate::specs::Machine::ReadingTerms::measure_at))]
    fn read(reader: &mut Reader<'_>) -> Result<MeasureTree, Fault> {
        let Some(TokenKind::Reserved(keyword)) = reader.next() else {
            return Err(reader.fault());
        };
        let Some(measure) = measure(keyword) else {
            return Err(reader.fault());
        };
        let word = reader.token(TokenKind::Reserved(keyword))?;
        Ok(MeasureTree { measure, word })
    }
}

impl Production for CountTree {
    ghost reading = { reading.count_at };

    #[tactic(auto, unfolding(crate::specs::Machine::ReadingTerms::count_at))]
    fn read(reader: &mut Reader<'_>) -> Result<CountTree, Fault> {
        if reader.begins(TokenKind::Number) {
            return Ok(CountTree::Number(reader.token(TokenKind::Number)?));
        }
        Ok(CountTree::Path(PathTree::read(reader)?))
    }
}

impl Production for DurationTree {
    ghost reading = { duration_at };

    #[tactic(auto, unfolding(crate::specs::Machine::ReadingTerms::duration_at))]
    fn read(reader: &mut Reader<'_>) -> Result<DurationTree, Fault> {
        let count = CountTree::read(reader)?;
        let measure = MeasureTree::read(reader)?;
        Ok(DurationTree { count, measure })
    }
}

/// Reads the first time of an event.
fn time(reader: &mut Reader<'_>) -> Result<MomentTree, Fault>
    ensures gives { Reads result reader.old reader.new reading.time_at }
    ensures shorter { OnOk result (length reader.new < length reader.old) }
{
    let place = reader.keyword(Keyword::Time)?;
    let event = between(reader, Sign::Open, Sign::Close)?;
    Ok(MomentTree::Time(place, event))
}

impl Production for MomentTree {
    ghost reading = { moment_at };

    #[tactic(auto, unfolding(crate::specs::Machine::ReadingTerms::moment_at))]
    fn read(reader: &mut Reader<'_>) -> Result<MomentTree, Fault> {
        match reader.next() {
            Some(TokenKind::Date) => Ok(MomentTree::Fixed(reader.token(TokenKind::Date)?)),
            Some(TokenKind::Reserved(Keyword::Time)) => time(reader),
            Some(_) => Ok(MomentTree::Path(PathTree::read(reader)?)),
            None => Err(reader.fault()),
        }
    }
}

impl Production for DateTree {
    ghost reading = { date_at };

    #[tactic(auto, unfolding(crate::specs::Machine::ReadingTerms::date_at))]
    fn read(reader: &mut Reader<'_>) -> Result<DateTree, Fault> {
        let moment = MomentTree::read(reader)?;
        let plus = each_behind(reader, Sign::Plus, DURATION_LIMIT)?;
        Ok(DateTree { moment, plus })
    }
}
