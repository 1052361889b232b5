ghost use Rattle.std.specs.Prelude.{◌≡◌, ◌↔◌, ◌+◌, ◌≤◌, [], IfOk, IsTrue, length};
ghost use Rattle.std.specs.List.{Contains};
ghost use Rattle.sy_base.specs.Points.{IsDated};
ghost use Rattle.sy_core.specs.Soundness.{IsSound};
ghost use Rattle.sy_core.specs.Tables as tables;
ghost use Rattle.sy_story.specs.Narratives.{Noting};
ghost use Rattle.sy_point.specs.Counting.{wakes_up_to};
ghost use Rattle.sy_monitor.specs.Following.{narrative_of};

use crate::table::table_as_of;
use std::alloc::Global;
use std::marker::Model;
use std::sync::ledger::Ledger;
use sy_base::{Memory, Point};
use sy_core::{Deed, Happening, Table};
use sy_outside::Steps;
use sy_story::{Noted, Story, StoryFault};

/// Follows a contract: it holds what happened, and says what stands as of a date.
#[derive(Drop)]
pub struct Monitor {
    alloc: Global,
    deed: Deed,
    story: Story,
}

impl Model for Monitor {
    ghost use Rattle.std.specs.Coded.{codes};
    ghost use Rattle.sy_core.specs.contracts.proposition.Prop as prop;
    ghost use Rattle.sy_monitor.specs.Following.{Followed};

    ghost Value = { Followed };

    ghost coded = { Prim.hlevel (codes, prop.the_row.coded) };

    ghost use Rattle.sy_monitor.specs.Machine.Keeping.{KeepsWell};

    ghost view = { λ m. record { deed = m.deed; happened = m.story.happenings } };

    ghost invariant = { λ m. KeepsWell m.deed m.story };
}

impl Monitor {
    /// A monitor of the deed, under which nothing happened yet.
    pub fn new(alloc: Global, deed: Deed) -> Result<Monitor, Memory>
        requires { IsSound deed }
        ensures { IfOk result (λ m. m ≡ record { deed = deed; happened = [] }) }
    {
        let story = Story::new(alloc, deed.start)?;
        Ok(Monitor { alloc, deed, story })
    }

    /// The deed that it follows.
    pub fn deed(&self) -> &Deed
        ensures deed { result.now ≡ self.now.deed }
        ensures sound { IsSound self.now.deed }
    {
        &self.deed
    }

    /// Notes what happened, at a point from the deed's start on. What was noted before changes
    /// nothing.
    pub fn note(&mut self, happening: Happening) -> Result<Noted, StoryFault>
        ensures deed { self.new.deed ≡ self.old.deed }
        ensures noting { Noting (narrative_of self.old) happening (narrative_of self.new) result }
    {
        self.story.note(happening)
    }

    /// Whether the happening was noted.
    pub fn knows(&self, happening: &Happening) -> bool
        ensures { IsTrue result ↔ Contains self.now.happened happening.now }
    {
        self.story.holds(happening)
    }

    /// How many happenings were noted, each counted once.
    pub fn len(&self) -> usize
        ensures { result ≡ length self.now.happened }
    {
        self.story.len()
    }

    /// Whether none was noted.
    pub fn is_empty(&self) -> bool
        ensures { IsTrue result ↔ (self.now.happened ≡ []) }
    {
        self.story.is_empty()
    }

    /// What stands as of a date of the deed's unit, by all that was noted up to it, also where
    /// something was noted late. It takes a step for each wake point from start to the date, and none
    /// for the points between them.
    pub fn report_at<L: Ledger>(&self, point: Point, steps: &mut Steps<L>) -> Result<Table, Memory>
        requires { IsDated self.now.deed.unit point }
        ensures table { IfOk result (λ t. t ≡ tables.table_as_of self.now.deed self.now.happened point) }
        ensures ticks { steps.new ≤ steps.old + wakes_up_to self.now.deed self.now.happened point }
    {
        table_as_of(self.alloc, &self.deed, &self.story, point, steps)
    }
}
