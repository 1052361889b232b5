ghost use Rattle.std.specs.Prelude.{◌≡◌, ◌<◌, ◌≤◌, length, OnOk};
ghost use Rattle.sy_reader.specs.Machine.Reading.{Reads};
ghost use Rattle.sy_spec.specs.Machine.ReadingSpecifications as reading;
ghost use Rattle.sy_spec.specs.Machine.ReadingSpecifications.{act_at, oblig_at, power_at, trigger_at, verb_at};

use crate::{ActTree, ObligTree, PowerTree, VerbTree};
use sy_lex::{Keyword, Sign, TokenKind};
use sy_reader::{Fault, Production, Reader, before, between};
use sy_tree::PropTree;
use sy_words::Verb;

/// Reads a trigger, unless the word stands there that would follow it.
#[tactic(auto, unfolding(crate::specs::Machine::ReadingSpecifications::trigger_at))]
fn trigger(reader: &mut Reader<'_>, keyword: Keyword) -> Result<Option<PropTree>, Fault>
    ensures gives { Reads result reader.old reader.new (trigger_at keyword) }
    ensures within { OnOk result (length reader.new ≤ length reader.old) }
{
    if reader.begins(TokenKind::Reserved(keyword)) {
        return Ok(None);
    }
    Ok(Some(before(reader, Sign::Arrow)?))
}

impl Production for ObligTree {
    ghost reading = { oblig_at };

    #[tactic(auto, unfolding(crate::specs::Machine::ReadingSpecifications::oblig_at))]
    fn read(reader: &mut Reader<'_>) -> Result<ObligTree, Fault> {
        let name = before(reader, Sign::Colon)?;
        let trigger = trigger(reader, Keyword::O)?;
        reader.keyword(Keyword::O)?;
        let debtor = between(reader, Sign::Open, Sign::Comma)?;
        let creditor = before(reader, Sign::Comma)?;
        let antecedent = before(reader, Sign::Comma)?;
        let consequent = before(reader, Sign::Close)?;
        Ok(ObligTree {
            name,
            trigger,
            debtor,
            creditor,
            antecedent,
            consequent,
        })
    }
}

/// The verb that a reserved word names.
fn verb(keyword: Keyword) -> Option<Verb>
    ensures { result ≡ reading.verb_of_word keyword }
{
    match keyword {
        Keyword::Suspends => Some(Verb::Suspends),
        Keyword::Resumes => Some(Verb::Resumes),
        Keyword::Discharges => Some(Verb::Discharges),
        Keyword::Terminates => Some(Verb::Terminates),
        Keyword::Triggers => Some(Verb::Triggers),
        _ => None,
    }
}

impl Production for VerbTree {
    ghost reading = { verb_at };

    #[tactic(auto, unfolding(crate::specs::Machine::ReadingSpecifications::verb_at))]
    fn read(reader: &mut Reader<'_>) -> Result<VerbTree, Fault> {
        let Some(TokenKind::Reserved(keyword)) = reader.next() else {
            return Err(reader.fault());
        };
        let Some(verb) = verb(keyword) else {
            return Err(reader.fault());
        };
        let place = reader.keyword(keyword)?;
        Ok(VerbTree { verb, place })
    }
}

impl Production for ActTree {
    ghost reading = { act_at };

    #[tactic(auto, unfolding(crate::specs::Machine::ReadingSpecifications::act_at))]
    fn read(reader: &mut Reader<'_>) -> Result<ActTree, Fault> {
        let verb = VerbTree::read(reader)?;
        let target = between(reader, Sign::Open, Sign::Close)?;
        Ok(ActTree { verb, target })
    }
}

impl Production for PowerTree {
    ghost reading = { power_at };

    #[tactic(auto, unfolding(crate::specs::Machine::ReadingSpecifications::power_at))]
    fn read(reader: &mut Reader<'_>) -> Result<PowerTree, Fault> {
        let name = before(reader, Sign::Colon)?;
        let trigger = trigger(reader, Keyword::P)?;
        reader.keyword(Keyword::P)?;
        let holder = between(reader, Sign::Open, Sign::Comma)?;
        let other_party = before(reader, Sign::Comma)?;
        let antecedent = before(reader, Sign::Comma)?;
        let act = before(reader, Sign::Close)?;
        Ok(PowerTree {
            name,
            trigger,
            holder,
            other_party,
            antecedent,
            act,
        })
    }
}
