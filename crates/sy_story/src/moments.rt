ghost use Rattle.std.specs.Prelude.{◌≡◌, [], ◌∷◌, IfOk, OnOk, OnErr};
ghost use Rattle.sy_story.specs.Machine.ByPoint.{IsPutIn};
ghost use Rattle.sy_story.specs.Narratives.{IsNextAfter, happenings_at};

use std::alloc::Global;
use std::collections::BTreeMap;
use std::marker::Model;
use std::ops::Bound;
use sy_base::{List, Memory, Point};
use sy_core::Happening;

/// Happenings by their points, those of one point in the order in which they were put.
#[derive(Drop)]
pub(crate) struct Moments {
    /// Where a point has none, it has no list.
    lists: BTreeMap<Point, List<Happening>>,
}

impl Model for Moments {
    ghost use Rattle.std.specs.Prelude.{List};
    ghost use Rattle.sy_core.specs.declared.happening.Happening.{Happening};
    ghost use Rattle.sy_story.specs.Machine.ByPoint.{IsByPoint, listed};

    ghost Value = { List Happening };

    ghost view = { λ m. listed m.lists.entries };

    ghost invariant = { λ m. IsByPoint m.lists.entries };
}

/// A list of one happening.
fn alone(alloc: Global, happening: Happening) -> Result<List<Happening>, Memory>
    ensures { IfOk result (λ list. list ≡ happening ∷ []) }
{
    let mut list = List::new(alloc);
    list.push(happening)?;
    Ok(list)
}

impl Moments {
    /// None.
    pub(crate) fn new(alloc: Global) -> Moments
        ensures { result ≡ [] }
    {
        Moments {
            lists: BTreeMap::new(alloc),
        }
    }

    /// Puts a copy of a happening behind those of its point. On want of memory all stays as it was.
    pub(crate) fn put(&mut self, alloc: Global, happening: &Happening) -> Result<(), Memory>
        ensures ok { OnOk result (IsPutIn self.old happening.now self.new) }
        ensures err { OnErr result (self.new ≡ self.old) }
    {
        let copy = happening.copy(alloc)?;
        match self.lists.get_mut(&happening.point) {
            Some(list) => list.push(copy),
            None => {
                self.lists.insert(happening.point, alone(alloc, copy)?)?;
                Ok(())
            }
        }
    }

    /// Those of a point.
    pub(crate) fn at(&self, point: Point) -> &[Happening]
        ensures { result.now ≡ happenings_at point self.now }
    {
        match self.lists.get(&point) {
            Some(list) => list.items(),
            None => &[],
        }
    }

    /// The least later point that has one.
    pub(crate) fn next_after(&self, point: Point) -> Option<Point>
        ensures { IsNextAfter self.now point result }
    {
        let mut later = self.lists.range((Bound::Excluded(point), Bound::Unbounded));
        match later.next() {
            Some((next, _)) => Some(*next),
            None => None,
        }
    }
}
