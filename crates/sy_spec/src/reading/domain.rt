ghost use Rattle.std.specs.Prelude.{◌≡◌, ◌<◌, ◌≤◌, length, OnOk};
ghost use Rattle.sy_reader.specs.Machine.Reading.{Reads};
ghost use Rattle.sy_spec.specs.Machine.ReadingSpecifications as reading;
ghost use Rattle.sy_spec.specs.Machine.ReadingSpecifications.{attr_at, base_at, domain_at, enumeration_at, env_at, type_at, with_listed_at};

use crate::headings::SpecHeadings;
use crate::{AttrTree, BaseTree, DomainTree, EnumTree, TypeTree};
use sy_base::{List, Place};
use sy_lex::{Keyword, Sign, TokenKind, Written};
use sy_reader::{Fault, Production, Reader, before, ended, listed};

impl Production for EnumTree {
    ghost reading = { enumeration_at };

    #[tactic(auto, unfolding(crate::specs::Machine::ReadingSpecifications::enumeration_at))]
    fn read(reader: &mut Reader<'_>) -> Result<EnumTree, Fault> {
        reader.keyword(Keyword::Enumeration)?;
        reader.sign(Sign::Open)?;
        let constants = listed(reader)?;
        reader.sign(Sign::Close)?;
        Ok(EnumTree { constants })
    }
}

impl Production for BaseTree {
    ghost reading = { base_at };

    #[tactic(auto, unfolding(crate::specs::Machine::ReadingSpecifications::base_at))]
    fn read(reader: &mut Reader<'_>) -> Result<BaseTree, Fault> {
        match reader.next() {
            Some(TokenKind::Reserved(Keyword::Role)) => {
                Ok(BaseTree::Role(reader.keyword(Keyword::Role)?))
            }
            Some(TokenKind::Reserved(Keyword::Asset)) => {
                Ok(BaseTree::Asset(reader.keyword(Keyword::Asset)?))
            }
            Some(TokenKind::Reserved(Keyword::Event)) => {
                Ok(BaseTree::Event(reader.keyword(Keyword::Event)?))
            }
            Some(_) => Ok(BaseTree::Named(reader.name()?)),
            None => Err(reader.fault()),
        }
    }
}

/// Reads `Env`, if it is there.
fn env(reader: &mut Reader<'_>) -> Result<Option<Place>, Fault>
    ensures gives { Reads result reader.old reader.new env_at }
    ensures within { OnOk result (length reader.new ≤ length reader.old) }
{
    if !reader.begins(TokenKind::Reserved(Keyword::Env)) {
        return Ok(None);
    }
    Ok(Some(reader.keyword(Keyword::Env)?))
}

impl Production for AttrTree {
    ghost reading = { attr_at };

    #[tactic(auto, unfolding(crate::specs::Machine::ReadingSpecifications::attr_at))]
    fn read(reader: &mut Reader<'_>) -> Result<AttrTree, Fault> {
        let env = env(reader)?;
        let name = before(reader, Sign::Colon)?;
        let type_name = reader.name()?;
        Ok(AttrTree {
            env,
            name,
            type_name,
        })
    }
}

/// Reads what is listed behind `with`, if that is there.
pub(crate) fn with_listed<T: Production>(reader: &mut Reader<'_>) -> Result<List<T>, Fault>
    ensures gives { Reads result reader.old reader.new (with_listed_at T.reading) }
    ensures within { OnOk result (length reader.new ≤ length reader.old) }
{
    if !reader.begins(TokenKind::Reserved(Keyword::With)) {
        return Ok(List::new(reader.alloc()));
    }
    reader.keyword(Keyword::With)?;
    listed(reader)
}

/// Reads `isA` or `isAn`.
fn is_a(reader: &mut Reader<'_>) -> Result<Place, Fault>
    ensures gives { Reads result reader.old reader.new reading.is_a_at }
    ensures shorter { OnOk result (length reader.new < length reader.old) }
{
    if reader.begins(TokenKind::Reserved(Keyword::IsAn)) {
        return reader.keyword(Keyword::IsAn);
    }
    reader.keyword(Keyword::IsA)
}

/// Reads what a type of this name is.
fn body(reader: &mut Reader<'_>, name: Written) -> Result<TypeTree, Fault>
    ensures gives { Reads result reader.old reader.new (reading.body_at name) }
    ensures shorter { OnOk result (length reader.new < length reader.old) }
{
    if reader.begins(TokenKind::Reserved(Keyword::Enumeration)) {
        return Ok(TypeTree::Enumeration(name, EnumTree::read(reader)?));
    }
    let base = BaseTree::read(reader)?;
    let attributes = with_listed(reader)?;
    Ok(TypeTree::Derived(name, base, attributes))
}

impl Production for TypeTree {
    ghost reading = { type_at };

    #[tactic(auto, unfolding(crate::specs::Machine::ReadingSpecifications::type_at))]
    fn read(reader: &mut Reader<'_>) -> Result<TypeTree, Fault> {
        let name = reader.name()?;
        is_a(reader)?;
        body(reader, name)
    }
}

impl Production for DomainTree {
    ghost reading = { domain_at };

    #[tactic(auto, unfolding(crate::specs::Machine::ReadingSpecifications::domain_at))]
    fn read(reader: &mut Reader<'_>) -> Result<DomainTree, Fault> {
        reader.keyword(Keyword::Domain)?;
        let name = reader.name()?;
        let types = ended::<_, SpecHeadings>(reader)?;
        reader.keyword(Keyword::EndDomain)?;
        Ok(DomainTree { name, types })
    }
}
