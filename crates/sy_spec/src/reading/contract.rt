ghost use Rattle.std.specs.Prelude.{◌≡◌, ◌<◌, ◌≤◌, length, OnOk};
ghost use Rattle.sy_reader.specs.Machine.Reading.{Reads};
ghost use Rattle.sy_spec.specs.Machine.ReadingSpecifications as reading;
ghost use Rattle.sy_spec.specs.Machine.ReadingSpecifications.{contract_at, decl_at, give_at, param_at, section_at, spec_at, surviving_at, unit_at};

use crate::headings::SpecHeadings;
use crate::reading::domain::with_listed;
use crate::{
    ContractTree, DeclTree, DomainTree, GiveTree, ObligTree, ParamTree, SpecTree, UnitTree,
};
use sy_base::{List, TimeUnit};
use sy_lex::{Keyword, Sign, TokenKind};
use sy_reader::{Fault, Production, Reader, before, ended, maybe_listed};
use sy_tree::RhsTree;

/// The unit that a reserved word names.
fn unit(keyword: Keyword) -> Option<TimeUnit>
    ensures { result ≡ reading.unit_of_word keyword }
{
    match keyword {
        Keyword::Minute => Some(TimeUnit::Minute),
        Keyword::Hour => Some(TimeUnit::Hour),
        Keyword::Day => Some(TimeUnit::Day),
        _ => None,
    }
}

impl Production for UnitTree {
    ghost reading = { unit_at };

    #[tactic(auto, unfolding(crate::specs::Machine::ReadingSpecifications::unit_at))]
    fn read(reader: &mut Reader<'_>) -> Result<UnitTree, Fault> {
        let Some(TokenKind::Reserved(keyword)) = reader.next() else {
            return Err(reader.fault());
        };
        let Some(unit) = unit(keyword) else {
            return Err(reader.fault());
        };
        let place = reader.keyword(keyword)?;
        Ok(UnitTree { unit, place })
    }
}

impl Production for ParamTree {
    ghost reading = { param_at };

    #[tactic(auto, unfolding(crate::specs::Machine::ReadingSpecifications::param_at))]
    fn read(reader: &mut Reader<'_>) -> Result<ParamTree, Fault> {
        let name = before(reader, Sign::Colon)?;
        let type_name = reader.name()?;
        Ok(ParamTree { name, type_name })
    }
}

impl Production for GiveTree {
    ghost reading = { give_at };

    #[tactic(auto, unfolding(crate::specs::Machine::ReadingSpecifications::give_at))]
    fn read(reader: &mut Reader<'_>) -> Result<GiveTree, Fault> {
        let name = before(reader, Sign::Assign)?;
        let value = RhsTree::read(reader)?;
        Ok(GiveTree { name, value })
    }
}

impl Production for DeclTree {
    ghost reading = { decl_at };

    #[tactic(auto, unfolding(crate::specs::Machine::ReadingSpecifications::decl_at))]
    fn read(reader: &mut Reader<'_>) -> Result<DeclTree, Fault> {
        let name = before(reader, Sign::Colon)?;
        let type_name = reader.name()?;
        let gives = with_listed(reader)?;
        Ok(DeclTree {
            name,
            type_name,
            gives,
        })
    }
}

/// Reads the lines of a section, if its heading is there.
#[tactic(auto, unfolding(crate::specs::Machine::ReadingSpecifications::section_at))]
fn section<T: Production>(reader: &mut Reader<'_>, heading: Keyword) -> Result<List<T>, Fault>
    ensures gives { Reads result reader.old reader.new (section_at heading T.reading) }
    ensures within { OnOk result (length reader.new ≤ length reader.old) }
{
    if !reader.begins(TokenKind::Reserved(heading)) {
        return Ok(List::new(reader.alloc()));
    }
    reader.keyword(heading)?;
    ended::<_, SpecHeadings>(reader)
}

/// Reads the surviving obligations, if their heading is there.
#[tactic(auto, unfolding(crate::specs::Machine::ReadingSpecifications::surviving_at))]
fn surviving(reader: &mut Reader<'_>) -> Result<List<ObligTree>, Fault>
    ensures gives { Reads result reader.old reader.new surviving_at }
    ensures within { OnOk result (length reader.new ≤ length reader.old) }
{
    if !reader.begins(TokenKind::Reserved(Keyword::Surviving)) {
        return Ok(List::new(reader.alloc()));
    }
    reader.keyword(Keyword::Surviving)?;
    reader.keyword(Keyword::Obligations)?;
    ended::<_, SpecHeadings>(reader)
}

impl Production for ContractTree {
    ghost reading = { contract_at };

    #[tactic(auto, unfolding(crate::specs::Machine::ReadingSpecifications::contract_at))]
    fn read(reader: &mut Reader<'_>) -> Result<ContractTree, Fault> {
        let place = reader.keyword(Keyword::Contract)?;
        let name = reader.name()?;
        reader.sign(Sign::Open)?;
        let parameters = maybe_listed(reader, Sign::Close)?;
        reader.sign(Sign::Close)?;
        reader.keyword(Keyword::Unit)?;
        let unit = UnitTree::read(reader)?;
        let declarations = section(reader, Keyword::Declarations)?;
        let preconditions = section(reader, Keyword::Preconditions)?;
        let postconditions = section(reader, Keyword::Postconditions)?;
        let obligations = section(reader, Keyword::Obligations)?;
        let surviving = surviving(reader)?;
        let powers = section(reader, Keyword::Powers)?;
        let constraints = section(reader, Keyword::Constraints)?;
        reader.keyword(Keyword::EndContract)?;
        Ok(ContractTree {
            place,
            name,
            parameters,
            unit,
            declarations,
            preconditions,
            postconditions,
            obligations,
            surviving,
            powers,
            constraints,
        })
    }
}

impl Production for SpecTree {
    ghost reading = { spec_at };

    #[tactic(auto, unfolding(crate::specs::Machine::ReadingSpecifications::spec_at))]
    fn read(reader: &mut Reader<'_>) -> Result<SpecTree, Fault> {
        let domain = DomainTree::read(reader)?;
        let contract = ContractTree::read(reader)?;
        Ok(SpecTree { domain, contract })
    }
}
