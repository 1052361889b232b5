ghost use Rattle.std.specs.Prelude.{◌≡◌, ◌++◌, map, OnOk};
ghost use Rattle.sy_lex.specs.declared.keyword.Keyword.TheVariants as keywords;
ghost use Rattle.sy_lex.specs.declared.sign.Sign.TheVariants.{Comma};
ghost use Rattle.sy_print.specs.CanonicalText as canonical;
ghost use Rattle.sy_print.specs.CanonicalText.{date_text, event_text, forms, in_brackets, keyword, prop_text, rhs_text, separated, sign, situation_text, term_text};

use super::term::cmp_sign;
use super::writer::{Printed, Writer};
use sy_base::Memory;
use sy_lex::{Keyword, Sign};
use sy_tree::{CmpTree, DateTree, EventTree, PropTree, RhsTree, SituationTree, TermTree};

/// Writes a comparison.
fn put_compare(
    left: &TermTree,
    cmp: &CmpTree,
    right: &RhsTree,
    out: &mut Writer,
) -> Result<(), Memory>
    ensures { OnOk result (out.new ≡ out.old
        ++ term_text left.now ++ sign (canonical.cmp_sign cmp.now.cmp) ++ rhs_text right.now) }
{
    left.put(out)?;
    out.sign(cmp_sign(cmp.cmp))?;
    right.put(out)
}

/// Writes that an event happens.
fn put_happens(event: &EventTree, out: &mut Writer) -> Result<(), Memory>
    ensures { OnOk result (out.new ≡ out.old
        ++ keyword keywords.Happens ++ in_brackets (event_text event.now)) }
{
    out.keyword(Keyword::Happens)?;
    out.sign(Sign::Open)?;
    event.put(out)?;
    out.sign(Sign::Close)
}

/// Writes that an event happens before a date, or after it.
fn put_dated(
    word: Keyword,
    event: &EventTree,
    date: &DateTree,
    out: &mut Writer,
) -> Result<(), Memory>
    ensures { OnOk result (out.new ≡ out.old
        ++ keyword word ++ in_brackets (event_text event.now ++ sign Comma ++ date_text date.now)) }
{
    out.keyword(word)?;
    out.sign(Sign::Open)?;
    event.put(out)?;
    out.sign(Sign::Comma)?;
    date.put(out)?;
    out.sign(Sign::Close)
}

/// Writes that an event happens between two dates.
fn put_within(
    event: &EventTree,
    from: &DateTree,
    to: &DateTree,
    out: &mut Writer,
) -> Result<(), Memory>
    ensures { OnOk result (out.new ≡ out.old ++ keyword keywords.HappensWithin ++ in_brackets (
        event_text event.now ++ sign Comma ++ date_text from.now ++ sign Comma ++ date_text to.now)) }
{
    out.keyword(Keyword::HappensWithin)?;
    out.sign(Sign::Open)?;
    event.put(out)?;
    out.sign(Sign::Comma)?;
    from.put(out)?;
    out.sign(Sign::Comma)?;
    to.put(out)?;
    out.sign(Sign::Close)
}

/// Writes that a situation holds between two dates.
fn put_occurs(
    situation: &SituationTree,
    from: &DateTree,
    to: &DateTree,
    out: &mut Writer,
) -> Result<(), Memory>
    ensures { OnOk result (out.new ≡ out.old ++ keyword keywords.Occurs ++ in_brackets (
        situation_text situation.now ++ sign Comma ++ date_text from.now ++ sign Comma ++ date_text to.now)) }
{
    out.keyword(Keyword::Occurs)?;
    out.sign(Sign::Open)?;
    situation.put(out)?;
    out.sign(Sign::Comma)?;
    from.put(out)?;
    out.sign(Sign::Comma)?;
    to.put(out)?;
    out.sign(Sign::Close)
}

/// Writes that a situation holds.
fn put_holds(situation: &SituationTree, out: &mut Writer) -> Result<(), Memory>
    ensures { OnOk result (out.new ≡ out.old
        ++ keyword keywords.Holds ++ in_brackets (situation_text situation.now)) }
{
    out.keyword(Keyword::Holds)?;
    out.sign(Sign::Open)?;
    situation.put(out)?;
    out.sign(Sign::Close)
}

/// Writes the parts of an `and`.
#[cycle(printing)]
fn put_all(parts: &[PropTree], out: &mut Writer) -> Result<(), Memory>
    ensures { OnOk result (out.new ≡ out.old
        ++ separated (keyword keywords.And) (λ part. part.in_and) (map forms parts.now)) }
{
    match parts {
        [] => Ok(()),
        [first, others @ ..] => {
            put_in_and(first, out)?;
            'part: for part in others {
                out.keyword(Keyword::And)?;
                put_in_and(part, out)?;
            }
            Ok(())
        }
    }
}

/// Writes the parts of an `or`.
#[cycle(printing)]
fn put_any(parts: &[PropTree], out: &mut Writer) -> Result<(), Memory>
    ensures { OnOk result (out.new ≡ out.old
        ++ separated (keyword keywords.Or) (λ part. part.in_or) (map forms parts.now)) }
{
    match parts {
        [] => Ok(()),
        [first, others @ ..] => {
            put_in_or(first, out)?;
            'part: for part in others {
                out.keyword(Keyword::Or)?;
                put_in_or(part, out)?;
            }
            Ok(())
        }
    }
}

/// Writes a part of an `and`, or what stands behind a `not`.
#[cycle(printing)]
fn put_in_and(tree: &PropTree, out: &mut Writer) -> Result<(), Memory>
    ensures { OnOk result (out.new ≡ out.old ++ (forms tree.now).in_and) }
{
    match tree {
        PropTree::Const(value, _) => out.truth(*value),
        PropTree::Not(part, _) => {
            out.keyword(Keyword::Not)?;
            put_in_and(part.get(), out)
        }
        PropTree::All(parts, _) => {
            out.sign(Sign::Open)?;
            put_all(parts.as_slice(), out)?;
            out.sign(Sign::Close)
        }
        PropTree::Any(parts, _) => {
            out.sign(Sign::Open)?;
            put_any(parts.as_slice(), out)?;
            out.sign(Sign::Close)
        }
        PropTree::Compare(left, cmp, right, _) => put_compare(left, cmp, right, out),
        PropTree::Happens(event, _) => put_happens(event, out),
        PropTree::Before(event, date, _) => put_dated(Keyword::HappensBefore, event, date, out),
        PropTree::After(event, date, _) => put_dated(Keyword::HappensAfter, event, date, out),
        PropTree::Within(event, from, to, _) => put_within(event, from, to, out),
        PropTree::Occurs(situation, from, to, _) => put_occurs(situation, from, to, out),
        PropTree::Holds(situation, _) => put_holds(situation, out),
    }
}

/// Writes a part of an `or`.
#[cycle(printing)]
fn put_in_or(tree: &PropTree, out: &mut Writer) -> Result<(), Memory>
    ensures { OnOk result (out.new ≡ out.old ++ (forms tree.now).in_or) }
{
    match tree {
        PropTree::All(parts, _) => put_all(parts.as_slice(), out),
        _ => put_in_and(tree, out),
    }
}

impl Printed for PropTree {
    ghost text = { prop_text };

    fn put(&self, out: &mut Writer) -> Result<(), Memory> {
        match self {
            PropTree::Any(parts, _) => put_any(parts.as_slice(), out),
            _ => put_in_or(self, out),
        }
    }
}
