ghost use Rattle.std.specs.Prelude.{◌≡◌, ◌≤◌, ◌<◌, length, OnOk};
ghost use Rattle.sy_reader.specs.Machine.Reading as spec;
ghost use Rattle.sy_reader.specs.Machine.Reading.{Reads, many_at};
ghost use Rattle.sy_tree.specs.Machine.ReadingTerms as reading;
ghost use Rattle.sy_tree.specs.Machine.ReadingTerms.{cmp_at, factor_at, inner_path, is_sum_sign, maybe_attribute, path_at, rhs_at, single_at, sum_at, target_at, term_at};

use crate::{CmpTree, FactorTree, PathTree, RhsTree, SingleTree, SumTree, TargetTree, TermTree};
use sy_base::List;
use sy_lex::{Keyword, Sign, TokenKind, Written};
use sy_reader::{Fault, Production, Reader, all_behind, behind};
use sy_words::Cmp;

/// Reads what stands behind a dot, if one is there.
fn attribute(reader: &mut Reader<'_>) -> Result<Option<Written>, Fault>
    ensures gives { Reads result reader.old reader.new maybe_attribute }
    ensures within { OnOk result (length reader.new ≤ length reader.old) }
{
    if !reader.begins(TokenKind::Sign(Sign::Dot)) {
        return Ok(None);
    }
    reader.sign(Sign::Dot)?;
    Ok(Some(reader.name()?))
}

impl Production for PathTree {
    ghost reading = { path_at };

    #[tactic(auto, unfolding(crate::specs::Machine::ReadingTerms::path_at))]
    fn read(reader: &mut Reader<'_>) -> Result<PathTree, Fault> {
        let name = reader.name()?;
        let Some(attribute_name) = attribute(reader)? else {
            return Ok(PathTree::Name(name));
        };
        Ok(match attribute(reader)? {
            Some(inner) => PathTree::Inner(name, attribute_name, inner),
            None => PathTree::Attribute(name, attribute_name),
        })
    }
}

/// Reads a number behind its `-`.
fn negative(reader: &mut Reader<'_>) -> Result<SingleTree, Fault>
    ensures gives { Reads result reader.old reader.new reading.negative_at }
    ensures shorter { OnOk result (length reader.new < length reader.old) }
{
    let place = reader.sign(Sign::Minus)?;
    Ok(SingleTree::Negative(place, reader.token(TokenKind::Number)?))
}

impl Production for SingleTree {
    ghost reading = { single_at };

    #[tactic(auto, unfolding(crate::specs::Machine::ReadingTerms::single_at))]
    fn read(reader: &mut Reader<'_>) -> Result<SingleTree, Fault> {
        match reader.next() {
            Some(TokenKind::Number) => Ok(SingleTree::Number(reader.token(TokenKind::Number)?)),
            Some(TokenKind::Sign(Sign::Minus)) => negative(reader),
            Some(TokenKind::Str) => Ok(SingleTree::Str(reader.token(TokenKind::Str)?)),
            Some(TokenKind::Date) => Ok(SingleTree::Date(reader.token(TokenKind::Date)?)),
            Some(_) => Ok(SingleTree::Path(PathTree::read(reader)?)),
            None => Err(reader.fault()),
        }
    }
}

impl Production for FactorTree {
    ghost reading = { factor_at };

    #[tactic(auto, unfolding(crate::specs::Machine::ReadingTerms::factor_at))]
    fn read(reader: &mut Reader<'_>) -> Result<FactorTree, Fault> {
        let first = SingleTree::read(reader)?;
        let others = all_behind(reader, Sign::Times)?;
        Ok(FactorTree { first, others })
    }
}

impl Production for SumTree {
    ghost reading = { sum_at };

    #[tactic(auto, unfolding(crate::specs::Machine::ReadingTerms::sum_at))]
    fn read(reader: &mut Reader<'_>) -> Result<SumTree, Fault> {
        match reader.next() {
            Some(TokenKind::Sign(Sign::Plus)) => { Ok(SumTree::Plus(behind(reader, Sign::Plus)?)) }
            Some(_) => { Ok(SumTree::Minus(behind(reader, Sign::Minus)?)) }
            None => Err(reader.fault()),
        }
    }
}

/// Whether a `+` or a `-` follows.
fn has_sum(reader: &Reader<'_>) -> bool
    ensures { result ≡ spec.next_passes is_sum_sign reader.now }
{
    matches!(
        reader.next(),
        Some(TokenKind::Sign(Sign::Plus | Sign::Minus))
    )
}

/// Reads what is added to a factor or taken from it.
fn sums(reader: &mut Reader<'_>) -> Result<List<SumTree>, Fault>
    ensures gives { Reads result reader.old reader.new (many_at is_sum_sign sum_at) }
    ensures within { OnOk result (length reader.new ≤ length reader.old) }
{
    let mut sums = List::new(reader.alloc());
    'sum: while has_sum(reader) {
        sums.push(SumTree::read(reader)?)?;
    }
    Ok(sums)
}

impl Production for TermTree {
    ghost reading = { term_at };

    #[tactic(auto, unfolding(crate::specs::Machine::ReadingTerms::term_at))]
    fn read(reader: &mut Reader<'_>) -> Result<TermTree, Fault> {
        let first = FactorTree::read(reader)?;
        let others = sums(reader)?;
        Ok(TermTree { first, others })
    }
}

impl Production for RhsTree {
    ghost reading = { rhs_at };

    #[tactic(auto, unfolding(crate::specs::Machine::ReadingTerms::rhs_at))]
    fn read(reader: &mut Reader<'_>) -> Result<RhsTree, Fault> {
        match reader.next() {
            Some(TokenKind::Reserved(Keyword::True)) => {
                Ok(RhsTree::Const(true, reader.keyword(Keyword::True)?))
            }
            Some(TokenKind::Reserved(Keyword::False)) => {
                Ok(RhsTree::Const(false, reader.keyword(Keyword::False)?))
            }
            Some(_) => Ok(RhsTree::Term(TermTree::read(reader)?)),
            None => Err(reader.fault()),
        }
    }
}

/// The comparison that a sign stands for.
fn compared(sign: Sign) -> Option<Cmp>
    ensures { result ≡ reading.cmp_of_sign sign }
{
    match sign {
        Sign::Equal => Some(Cmp::Eq),
        Sign::NotEqual => Some(Cmp::Ne),
        Sign::Less => Some(Cmp::Lt),
        Sign::AtMost => Some(Cmp::Le),
        Sign::Greater => Some(Cmp::Gt),
        Sign::AtLeast => Some(Cmp::Ge),
        _ => None,
    }
}

impl Production for CmpTree {
    ghost reading = { cmp_at };

    #[tactic(auto, unfolding(crate::specs::Machine::ReadingTerms::cmp_at))]
    fn read(reader: &mut Reader<'_>) -> Result<CmpTree, Fault> {
        let Some(TokenKind::Sign(sign)) = reader.next() else {
            return Err(reader.fault());
        };
        let Some(cmp) = compared(sign) else {
            return Err(reader.fault());
        };
        let place = reader.sign(sign)?;
        Ok(CmpTree { cmp, place })
    }
}

impl Production for TargetTree {
    ghost reading = { target_at };

    #[tactic(auto, unfolding(crate::specs::Machine::ReadingTerms::target_at))]
    fn read(reader: &mut Reader<'_>) -> Result<TargetTree, Fault> {
        if reader.begins(TokenKind::Reserved(Keyword::ThisContract)) {
            return Ok(TargetTree::Contract(reader.keyword(Keyword::ThisContract)?));
        }
        Ok(TargetTree::Named(reader.name()?))
    }
}
