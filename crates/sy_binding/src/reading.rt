ghost use Rattle.std.specs.Prelude.{◌≡◌, ◌<◌, length, OnOk};
ghost use Rattle.sy_reader.specs.Machine.Reading.{Reads};
ghost use Rattle.sy_binding.specs.Machine.ReadingBindings as reading;
ghost use Rattle.sy_binding.specs.Machine.ReadingBindings.{binding_at, bound_at, field_at, given_at, value_at};

use crate::{BindTree, BoundTree, FieldTree, GivenTree, ValueTree};
use sy_lex::{Keyword, Sign, TokenKind};
use sy_reader::{Fault, NoHeadings, Production, Reader, before, ended, maybe_listed};

/// Reads a number behind its `-`.
fn negative(reader: &mut Reader<'_>) -> Result<ValueTree, Fault>
    ensures gives { Reads result reader.old reader.new reading.negative_value_at }
    ensures shorter { OnOk result (length reader.new < length reader.old) }
{
    let place = reader.sign(Sign::Minus)?;
    Ok(ValueTree::Negative(place, reader.token(TokenKind::Number)?))
}

impl Production for ValueTree {
    ghost reading = { value_at };

    #[tactic(auto, unfolding(crate::specs::Machine::ReadingBindings::value_at))]
    fn read(reader: &mut Reader<'_>) -> Result<ValueTree, Fault> {
        match reader.next() {
            Some(TokenKind::Number) => Ok(ValueTree::Number(reader.token(TokenKind::Number)?)),
            Some(TokenKind::Sign(Sign::Minus)) => negative(reader),
            Some(TokenKind::Str) => Ok(ValueTree::Str(reader.token(TokenKind::Str)?)),
            Some(TokenKind::Date) => Ok(ValueTree::Date(reader.token(TokenKind::Date)?)),
            Some(TokenKind::Reserved(Keyword::True)) => {
                Ok(ValueTree::Const(true, reader.keyword(Keyword::True)?))
            }
            Some(TokenKind::Reserved(Keyword::False)) => {
                Ok(ValueTree::Const(false, reader.keyword(Keyword::False)?))
            }
            Some(_) => Ok(ValueTree::Name(reader.name()?)),
            None => Err(reader.fault()),
        }
    }
}

impl Production for FieldTree {
    ghost reading = { field_at };

    #[tactic(auto, unfolding(crate::specs::Machine::ReadingBindings::field_at))]
    fn read(reader: &mut Reader<'_>) -> Result<FieldTree, Fault> {
        let name = before(reader, Sign::Assign)?;
        let value = ValueTree::read(reader)?;
        Ok(FieldTree { name, value })
    }
}

/// Reads the values of attributes, between their braces.
fn attributes(reader: &mut Reader<'_>) -> Result<BoundTree, Fault>
    ensures gives { Reads result reader.old reader.new reading.attributes_at }
    ensures shorter { OnOk result (length reader.new < length reader.old) }
{
    let place = reader.sign(Sign::OpenBrace)?;
    let fields = maybe_listed(reader, Sign::CloseBrace)?;
    reader.sign(Sign::CloseBrace)?;
    Ok(BoundTree::Attributes(place, fields))
}

impl Production for BoundTree {
    ghost reading = { bound_at };

    #[tactic(auto, unfolding(crate::specs::Machine::ReadingBindings::bound_at))]
    fn read(reader: &mut Reader<'_>) -> Result<BoundTree, Fault> {
        if reader.begins(TokenKind::Sign(Sign::OpenBrace)) {
            return attributes(reader);
        }
        Ok(BoundTree::Value(ValueTree::read(reader)?))
    }
}

impl Production for GivenTree {
    ghost reading = { given_at };

    #[tactic(auto, unfolding(crate::specs::Machine::ReadingBindings::given_at))]
    fn read(reader: &mut Reader<'_>) -> Result<GivenTree, Fault> {
        let name = before(reader, Sign::Assign)?;
        let bound = BoundTree::read(reader)?;
        Ok(GivenTree { name, bound })
    }
}

impl Production for BindTree {
    ghost reading = { binding_at };

    #[tactic(auto, unfolding(crate::specs::Machine::ReadingBindings::binding_at))]
    fn read(reader: &mut Reader<'_>) -> Result<BindTree, Fault> {
        reader.keyword(Keyword::Start)?;
        let start = reader.token(TokenKind::Date)?;
        reader.sign(Sign::Semicolon)?;
        let parameters = ended::<_, NoHeadings>(reader)?;
        Ok(BindTree { start, parameters })
    }
}
