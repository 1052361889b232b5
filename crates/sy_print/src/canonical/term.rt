ghost use Rattle.std.specs.Prelude.{◌≡◌, ◌++◌, OnOk};
ghost use Rattle.sy_lex.specs.Keywords.{plural_keyword};
ghost use Rattle.sy_print.specs.CanonicalText as canonical;
ghost use Rattle.sy_tree.specs.Terms as grammar;
ghost use Rattle.sy_print.specs.CanonicalText.{count_text, date_text, duration_text, event_text, factor_text, guard_text, guards_text, in_brackets, moment_text, path_text, rhs_text, single_text, situation_text, sum_text, target_text, term_text};

use super::writer::{Printed, Writer};
use sy_base::{Measure, Memory};
use sy_lex::{Keyword, Sign};
use sy_tree::{
    CountTree, DateTree, DurationTree, EventTree, FactorTree, GuardTree, MomentTree, PathTree,
    RhsTree, SingleTree, SituationTree, SumTree, TargetTree, TermTree,
};
use sy_words::{Cmp, Kind};

impl Printed for PathTree {
    ghost text = { path_text };

    fn put(&self, out: &mut Writer) -> Result<(), Memory> {
        match self {
            PathTree::Name(name) => out.token(name),
            PathTree::Attribute(name, attribute) => {
                out.token(name)?;
                out.sign(Sign::Dot)?;
                out.token(attribute)
            }
            PathTree::Inner(name, attribute, inner) => {
                out.token(name)?;
                out.sign(Sign::Dot)?;
                out.token(attribute)?;
                out.sign(Sign::Dot)?;
                out.token(inner)
            }
        }
    }
}

impl Printed for SingleTree {
    ghost text = { single_text };

    fn put(&self, out: &mut Writer) -> Result<(), Memory> {
        match self {
            SingleTree::Number(number) => out.number(number),
            SingleTree::Negative(_, number) => {
                out.sign(Sign::Minus)?;
                out.number(number)
            }
            SingleTree::Str(text) => out.token(text),
            SingleTree::Date(date) => out.token(date),
            SingleTree::Path(path) => path.put(out),
        }
    }
}

impl Printed for FactorTree {
    ghost text = { factor_text };

    fn put(&self, out: &mut Writer) -> Result<(), Memory> {
        self.first.put(out)?;
        out.each_behind(Sign::Times, self.others.items())
    }
}

impl Printed for SumTree {
    ghost text = { sum_text };

    fn put(&self, out: &mut Writer) -> Result<(), Memory> {
        match self {
            SumTree::Plus(factor) => {
                out.sign(Sign::Plus)?;
                factor.put(out)
            }
            SumTree::Minus(factor) => {
                out.sign(Sign::Minus)?;
                factor.put(out)
            }
        }
    }
}

impl Printed for TermTree {
    ghost text = { term_text };

    fn put(&self, out: &mut Writer) -> Result<(), Memory> {
        self.first.put(out)?;
        out.each(self.others.items())
    }
}

impl Printed for RhsTree {
    ghost text = { rhs_text };

    fn put(&self, out: &mut Writer) -> Result<(), Memory> {
        match self {
            RhsTree::Term(term) => term.put(out),
            RhsTree::Const(value, _) => out.truth(*value),
        }
    }
}

/// The sign of a comparison.
pub(crate) fn cmp_sign(cmp: Cmp) -> Sign
    ensures { result ≡ canonical.cmp_sign cmp }
{
    match cmp {
        Cmp::Eq => Sign::Equal,
        Cmp::Ne => Sign::NotEqual,
        Cmp::Lt => Sign::Less,
        Cmp::Le => Sign::AtMost,
        Cmp::Gt => Sign::Greater,
        Cmp::Ge => Sign::AtLeast,
    }
}

impl Printed for TargetTree {
    ghost text = { target_text };

    fn put(&self, out: &mut Writer) -> Result<(), Memory> {
        match self {
            TargetTree::Named(name) => out.token(name),
            TargetTree::Contract(_) => out.keyword(Keyword::ThisContract),
        }
    }
}

/// Writes a target in brackets.
pub(crate) fn put_target(target: &TargetTree, out: &mut Writer) -> Result<(), Memory>
    ensures { OnOk result (out.new ≡ out.old ++ in_brackets (target_text target.now)) }
{
    out.sign(Sign::Open)?;
    target.put(out)?;
    out.sign(Sign::Close)
}

impl Printed for GuardTree {
    ghost text = { guard_text };

    fn put(&self, out: &mut Writer) -> Result<(), Memory> {
        out.token(&self.name)?;
        out.sign(cmp_sign(self.cmp.cmp))?;
        self.value.put(out)
    }
}

/// Writes guards in their brackets, or nothing where there are none.
fn put_guards(guards: &[GuardTree], out: &mut Writer) -> Result<(), Memory>
    ensures { OnOk result (out.new ≡ out.old ++ guards_text guards.now) }
{
    if guards.is_empty() {
        return Ok(());
    }
    out.sign(Sign::OpenBracket)?;
    out.listed(guards)?;
    out.sign(Sign::CloseBracket)
}

/// The word of a kind of internal event.
fn kind_word(kind: Kind) -> Keyword
    ensures { result ≡ grammar.kind_word kind }
{
    match kind {
        Kind::Exerted => Keyword::Exerted,
        Kind::Triggered => Keyword::Triggered,
        Kind::Activated => Keyword::Activated,
        Kind::Resumed => Keyword::Resumed,
        Kind::Suspended => Keyword::Suspended,
        Kind::Fulfilled => Keyword::Fulfilled,
        Kind::Violated => Keyword::Violated,
        Kind::Expired => Keyword::Expired,
        Kind::Discharged => Keyword::Discharged,
        Kind::Terminated => Keyword::Terminated,
        Kind::Completed => Keyword::Completed,
    }
}

impl Printed for EventTree {
    ghost text = { event_text };

    fn put(&self, out: &mut Writer) -> Result<(), Memory> {
        match self {
            EventTree::Declared(name, guards) => {
                out.token(name)?;
                put_guards(guards.items(), out)
            }
            EventTree::Internal(kind, _, target) => {
                out.keyword(kind_word(*kind))?;
                put_target(target, out)
            }
        }
    }
}

impl Printed for SituationTree {
    ghost text = { situation_text };

    #[tactic(auto, unfolding(crate::specs::CanonicalText::situation_text))]
    fn put(&self, out: &mut Writer) -> Result<(), Memory> {
        out.keyword(Keyword::State)?;
        put_target(&self.target, out)?;
        out.sign(if self.equal {
            Sign::Equal
        } else {
            Sign::NotEqual
        })?;
        out.token(&self.state)
    }
}

/// The reserved word of a measure in the plural.
fn plural_keyword(measure: Measure) -> Keyword
    ensures { result ≡ plural_keyword measure }
{
    match measure {
        Measure::Minutes => Keyword::Minutes,
        Measure::Hours => Keyword::Hours,
        Measure::Days => Keyword::Days,
        Measure::Weeks => Keyword::Weeks,
    }
}

impl Printed for CountTree {
    ghost text = { count_text };

    fn put(&self, out: &mut Writer) -> Result<(), Memory> {
        match self {
            CountTree::Number(number) => out.number(number),
            CountTree::Path(path) => path.put(out),
        }
    }
}

impl Printed for DurationTree {
    ghost text = { duration_text };

    fn put(&self, out: &mut Writer) -> Result<(), Memory> {
        self.count.put(out)?;
        out.keyword(plural_keyword(self.measure.measure))
    }
}

impl Printed for MomentTree {
    ghost text = { moment_text };

    fn put(&self, out: &mut Writer) -> Result<(), Memory> {
        match self {
            MomentTree::Fixed(date) => out.token(date),
            MomentTree::Path(path) => path.put(out),
            MomentTree::Time(_, event) => {
                out.keyword(Keyword::Time)?;
                out.sign(Sign::Open)?;
                event.put(out)?;
                out.sign(Sign::Close)
            }
        }
    }
}

impl Printed for DateTree {
    ghost text = { date_text };

    #[tactic(auto, unfolding(crate::specs::CanonicalText::date_text))]
    fn put(&self, out: &mut Writer) -> Result<(), Memory> {
        self.moment.put(out)?;
        out.each_behind(Sign::Plus, self.plus.items())
    }
}
