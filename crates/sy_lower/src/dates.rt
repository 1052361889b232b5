ghost use Rattle.std.specs.Prelude.{◌≡◌, map, IfOk};
ghost use Rattle.sy_lower.specs.Dates as dates;
ghost use Rattle.sy_lower.specs.Dates.{date_term, duration_of, durations_of};
ghost use Rattle.sy_lower.specs.Parts.{all_there, that_passes};
ghost use Rattle.sy_core.specs.Soundness.{is_duration_of};

use crate::Lowering;
use crate::values::is_dated;
use sy_base::{Duration, List, Memory, Point, TimeUnit};
use sy_core::{Base, DateTerm};
use sy_given::Known;
use sy_literal::{date, greatest_count, is_finer};
use sy_terms::{Item, duration_count, item_of_path};
use sy_tree::{DateTree, DurationTree, MomentTree};

/// A date within the range of dates, which begins a date term.
fn fixed(unit: TimeUnit, point: Option<Point>) -> Option<Base>
    ensures { result ≡ dates.fixed unit point }
{
    match point {
        Some(point) if is_dated(unit, point) => Some(Base::Fixed(point)),
        _ => None,
    }
}

/// The date that an item is.
fn date_of(item: Option<Item>) -> Option<Point>
    ensures { result ≡ dates.date_of item }
{
    match item {
        Some(Item::Value(Known::Date(point))) => Some(point),
        _ => None,
    }
}

/// Whether a duration is one of a unit.
fn is_duration_of(unit: TimeUnit, duration: Duration) -> bool
    ensures { result ≡ is_duration_of unit duration }
{
    !is_finer(duration.measure, unit) && duration.count <= greatest_count(duration.measure)
}

impl Lowering<'_> {
    /// A duration.
    fn duration(&self, tree: &DurationTree) -> Result<Option<Duration>, Memory>
        ensures { IfOk result (λ found. found
            ≡ duration_of self.now.things self.now.environment tree.now) }
    {
        let measure = tree.measure.measure;
        let count = duration_count(
            self.alloc,
            self.scope,
            self.environment,
            measure,
            &tree.count,
        )?;
        let Some(count) = count else {
            return Ok(None);
        };
        let duration = Duration { count, measure };
        if is_duration_of(self.environment.unit(), duration) {
            Ok(Some(duration))
        } else {
            Ok(None)
        }
    }

    /// All durations, where each is one.
    fn all_durations(&self, trees: &[DurationTree]) -> Result<Option<List<Duration>>, Memory>
        ensures { IfOk result (λ found. found
            ≡ all_there (map (duration_of self.now.things self.now.environment) trees.now)) }
    {
        let mut list = List::new(self.alloc);
        'tree: for tree in trees {
            match self.duration(tree)? {
                Some(duration) => list.push(duration)?,
                None => return Ok(None),
            }
        }
        Ok(Some(list))
    }

    /// The durations of a date term: at most eight.
    fn durations(&self, trees: &[DurationTree]) -> Result<Option<List<Duration>>, Memory>
        ensures { IfOk result (λ found. found
            ≡ durations_of self.now.things self.now.environment trees.now) }
    {
        match self.all_durations(trees)? {
            Some(list) if list.items().len() <= 8 => Ok(Some(list)),
            _ => Ok(None),
        }
    }

    /// What a date term begins with.
    fn base(&self, moment: &MomentTree) -> Result<Option<Base>, Memory>
        ensures { IfOk result (λ found. found ≡ dates.base_of self.now moment.now) }
    {
        let unit = self.environment.unit();
        match moment {
            MomentTree::Fixed(token) => Ok(fixed(unit, date(unit, &token.text))),
            MomentTree::Path(path) => {
                let item = item_of_path(self.alloc, self.scope, self.environment, path)?;
                Ok(fixed(unit, date_of(item)))
            }
            MomentTree::Time(_, event) => match self.event(event)? {
                Some(event) => Ok(Some(Base::First(event))),
                None => Ok(None),
            },
        }
    }

    /// A date term.
    pub(crate) fn date(&self, tree: &DateTree) -> Result<Option<DateTerm>, Memory>
        ensures { IfOk result (λ found. found ≡ date_term self.now tree.now) }
    {
        let Some(base) = self.base(&tree.moment)? else {
            return Ok(None);
        };
        match self.durations(tree.plus.items())? {
            Some(plus) => Ok(Some(DateTerm { base, plus })),
            None => Ok(None),
        }
    }
}
