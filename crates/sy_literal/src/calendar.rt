ghost use Rattle.std.specs.Prelude.{◌≡◌, ◌++◌, IfOk, OnOk};
ghost use Rattle.sy_base.specs.Measures as measures;
ghost use Rattle.sy_domain.specs.Failures as failures;
ghost use Rattle.sy_literal.specs.Calendar as calendar;
ghost use Rattle.sy_literal.specs.Calendar.{bad_date, bad_dates, calendar_refusal, fine_measures};

use crate::date;
use crate::literals::{Literals, walk_literals};
use std::alloc::Global;
use sy_base::{FaultName, FileKind, List, Measure, Memory, Place, Refusal, TimeUnit};
use sy_domain::{Failure, fail_unless, refusal};
use sy_lex::Written;
use sy_spec::SpecTree;
use sy_tree::{DurationTree, SingleTree};

/// Finds the dates that have a fault in the unit.
#[derive(Drop)]
struct BadDates {
    alloc: Global,
    unit: TimeUnit,
}

impl BadDates {
    fn check(&self, token: &Written, out: &mut List<Failure>) -> Result<(), Memory>
        ensures { OnOk result (out.new ≡ out.old ++ bad_date self.now.unit token.now) }
    {
        let well = date(self.unit, &token.text).is_some();
        fail_unless(self.alloc, well, token, out)
    }
}

impl Literals for BadDates {
    ghost use Rattle.sy_literal.specs.Calendar.{date_literals};

    ghost found_literals = { λ d. date_literals d.unit };

    fn single(&self, single: &SingleTree, out: &mut List<Failure>) -> Result<(), Memory> {
        match single {
            SingleTree::Date(token) => self.check(token, out),
            _ => Ok(()),
        }
    }

    fn fixed(&self, token: &Written, out: &mut List<Failure>) -> Result<(), Memory> {
        self.check(token, out)
    }

    fn duration(&self, _: &DurationTree, _: &mut List<Failure>) -> Result<(), Memory> {
        Ok(())
    }
}

/// Whether a measure is finer than a unit.
pub fn is_finer(measure: Measure, unit: TimeUnit) -> bool
    ensures { result ≡ measures.is_finer measure unit }
{
    match unit {
        TimeUnit::Minute => false,
        TimeUnit::Hour => matches!(measure, Measure::Minutes),
        TimeUnit::Day => matches!(measure, Measure::Minutes | Measure::Hours),
    }
}

/// Finds the measures that are finer than the unit.
#[derive(Drop)]
struct FineMeasures {
    alloc: Global,
    unit: TimeUnit,
}

impl Literals for FineMeasures {
    ghost use Rattle.sy_literal.specs.Calendar.{measure_literals};

    ghost found_literals = { λ m. measure_literals m.unit };

    fn single(&self, _: &SingleTree, _: &mut List<Failure>) -> Result<(), Memory> {
        Ok(())
    }

    fn fixed(&self, _: &Written, _: &mut List<Failure>) -> Result<(), Memory> {
        Ok(())
    }

    fn duration(&self, duration: &DurationTree, out: &mut List<Failure>) -> Result<(), Memory> {
        let well = !is_finer(duration.measure.measure, self.unit);
        fail_unless(self.alloc, well, &duration.measure.word, out)
    }
}

fn find_bad_dates(alloc: Global, tree: &SpecTree) -> Result<List<Failure>, Memory>
    ensures { IfOk result (λ found. found ≡ bad_dates tree.now) }
{
    let mut out = List::new(alloc);
    let unit = tree.contract.unit.unit;
    walk_literals(&BadDates { alloc, unit }, tree, &mut out)?;
    Ok(out)
}

fn find_fine_measures(alloc: Global, tree: &SpecTree) -> Result<List<Failure>, Memory>
    ensures { IfOk result (λ found. found ≡ fine_measures tree.now) }
{
    let mut out = List::new(alloc);
    let unit = tree.contract.unit.unit;
    walk_literals(&FineMeasures { alloc, unit }, tree, &mut out)?;
    Ok(out)
}

/// Whether a place stands before another. None stands before one that is left out.
fn stands_before(a: Option<Place>, b: Option<Place>) -> bool
    ensures { result ≡ failures.stands_before a b }
{
    match (a, b) {
        (Some(a), Some(b)) => a.line < b.line || a.line == b.line && a.column < b.column,
        _ => false,
    }
}

/// The one of two refusals whose cause stands first.
fn earlier(refusal: Option<Refusal>, other: Option<Refusal>) -> Option<Refusal>
    ensures { result ≡ calendar.earlier refusal other }
{
    match (refusal, other) {
        (None, other) => other,
        (Some(refusal), Some(other)) if stands_before(other.place, refusal.place) => Some(other),
        (Some(refusal), _) => Some(refusal),
    }
}

/// The refusal of a specification for the date with a fault in its unit, or the measure finer than
/// its unit, that stands first in the source: `BadDate` at the date, or `BadUnit` at the measure's
/// word.
pub fn calendar_fault(alloc: Global, tree: &SpecTree) -> Result<Option<Refusal>, Memory>
    ensures { IfOk result (λ fault. fault ≡ calendar_refusal tree.now) }
{
    let dates = find_bad_dates(alloc, tree)?;
    let measures = find_fine_measures(alloc, tree)?;
    let of_dates = refusal(alloc, FileKind::Spec, FaultName::BadDate, dates.items())?;
    let of_measures = refusal(alloc, FileKind::Spec, FaultName::BadUnit, measures.items())?;
    Ok(earlier(of_dates, of_measures))
}
