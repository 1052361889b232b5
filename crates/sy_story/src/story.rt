ghost use Rattle.std.specs.Prelude.{◌≡◌, ◌↔◌, [], length, IfOk, IsTrue};
ghost use Rattle.std.specs.List.{Contains};
ghost use Rattle.sy_story.specs.Narratives.{IsOnce, IsNextAfter, Noting, happenings_at};
ghost use Rattle.sy_story.specs.declared.story.StoryFault.TheVariants.{Memory as Wanting};

use crate::moments::Moments;
use std::alloc::{AllocFailed, Global};
use std::collections::BTreeSet;
use std::marker::Model;
use sy_base::{Memory, Point};
use sy_core::Happening;
use thiserror::Error;

/// How many happenings a story may hold.
const LIMIT: usize = 200_000;

/// Whether a happening was held before.
#[derive(Clone, Copy, Debug, PartialEq, Eq)]
pub enum Noted {
    New,
    Known,
}

/// Why a happening wasn't noted.
#[derive(Clone, Copy, Debug, PartialEq, Eq, Error)]
pub enum StoryFault {
    /// Its point is before the start.
    #[error("before the start")]
    TooEarly,
    /// It is new, and 200,000 are held.
    #[error("too many happenings")]
    TooMany,
    #[error("out of memory")]
    Memory,
}

impl From<Memory> for StoryFault {
    ghost from_gives = { λ _ fault. fault ≡ Wanting };

    fn from(_: Memory) -> StoryFault {
        StoryFault::Memory
    }
}

impl From<AllocFailed<Happening>> for StoryFault {
    ghost from_gives = { λ _ fault. fault ≡ Wanting };

    fn from(_: AllocFailed<Happening>) -> StoryFault {
        StoryFault::Memory
    }
}

/// A set of happenings, none of them before its start. In which order they were noted, and how
/// often, makes no difference.
#[derive(Drop)]
pub struct Story {
    alloc: Global,
    start: Point,
    /// Those that are held, to find one.
    known: BTreeSet<Happening>,
    /// The same, by their points.
    moments: Moments,
}

impl Model for Story {
    ghost use Rattle.sy_story.specs.Narratives.{Narrative};
    ghost use Rattle.sy_story.specs.Machine.Holding.{HoldsWell};

    ghost Value = { Narrative };

    ghost view = { λ s. record { start = s.start; happenings = s.moments } };

    ghost invariant = { λ s. HoldsWell s.start s.known s.moments };
}

impl Story {
    /// A story with this start, which holds none.
    pub fn new(alloc: Global, start: Point) -> Result<Story, Memory>
        ensures { IfOk result (λ s. s ≡ record { start = start; happenings = [] }) }
    {
        Ok(Story {
            alloc,
            start,
            known: BTreeSet::new(alloc),
            moments: Moments::new(alloc),
        })
    }

    /// Holds a happening from now on. One that is held already changes nothing.
    pub fn note(&mut self, happening: Happening) -> Result<Noted, StoryFault>
        ensures { Noting self.old happening self.new result }
    {
        if happening.point < self.start {
            return Err(StoryFault::TooEarly);
        }
        if self.known.contains(&happening) {
            return Ok(Noted::Known);
        }
        if self.known.len() >= LIMIT {
            return Err(StoryFault::TooMany);
        }
        self.known.insert(happening.copy(self.alloc)?)?;
        if self.moments.put(self.alloc, &happening).is_err() {
            self.known.remove(&happening);
            return Err(StoryFault::Memory);
        }
        Ok(Noted::New)
    }

    /// Whether it holds the happening.
    pub fn holds(&self, happening: &Happening) -> bool
        ensures { IsTrue result ↔ Contains self.now.happenings happening.now }
    {
        self.known.contains(happening)
    }

    /// The happenings at a point, each once.
    pub fn at(&self, point: Point) -> &[Happening]
        ensures { result.now ≡ happenings_at point self.now.happenings }
    {
        self.moments.at(point)
    }

    /// The least later point that has a happening.
    pub fn next_after(&self, point: Point) -> Option<Point>
        ensures { IsNextAfter self.now.happenings point result }
    {
        self.moments.next_after(point)
    }

    /// How many happenings it holds.
    pub fn len(&self) -> usize
        ensures size { result ≡ length self.now.happenings }
        // None of them stands twice in the list that contracts see.
        ensures once { IsOnce self.now.happenings }
    {
        self.known.len()
    }

    /// Whether it holds none.
    pub fn is_empty(&self) -> bool
        ensures { IsTrue result ↔ (self.now.happenings ≡ []) }
    {
        self.known.is_empty()
    }
}
