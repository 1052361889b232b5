ghost use Rattle.std.specs.Prelude.{◌≡◌, ◌↔◌, ◌++◌, ◌+◌, ◌≤◌, ◌+ℤ◌, ◌-ℤ◌, ◌≤ℤ◌, ◌<◌, ◌^◌, ℕ, suc, pos, nat_abs, [], ◌∷◌, List, Some, slice_get, IfOk, OnOk, IsTrue, length, if◌then◌else◌};
ghost use Rattle.std.specs.List.{Contains};
ghost use Rattle.sy_base.specs.Points.{IsDated};
ghost use Rattle.sy_core.specs.declared.deed.Deed.{Deed as ADeed};
ghost use Rattle.sy_core.specs.declared.happening.Happening.{Happening as Happened};
ghost use Rattle.sy_core.specs.declared.happening.What.TheVariants.{Exert};
ghost use Rattle.sy_core.specs.declared.position.Position.{Position};
ghost use Rattle.sy_core.specs.Chronicle.{moment_at};
ghost use Rattle.sy_core.specs.Moments.{Moment};
ghost use Rattle.sy_core.specs.Soundness.{IsSound};
ghost use Rattle.sy_core.specs.Tables.{is_violated, is_void, marks_at};
ghost use Rattle.sy_point.specs.Counting.{wakes};
ghost use Rattle.sy_point.specs.Standing.{IsMadeFor, StandsFor, NoneWakes, IsNextWake, next_point};
ghost use Rattle.sy_monitor.specs.Machine.Coming as coming;
ghost use Rattle.sy_monitor.specs.Machine.Coming.{HasCome, Tells, IsNextUpTo};

use std::alloc::Global;
use std::sync::ledger::Ledger;
use sy_base::{List, Memory, Point};
use sy_core::{Deed, Happening, Mark, Target, What};
use sy_outside::Steps;
use sy_point::Core;
use sy_story::Story;
use sy_words::Kind;

/// What a deed came to after some points from start on, with the marks of them.
#[derive(Drop)]
pub(crate) struct Course {
    pub(crate) core: Core,
    /// The violations at those points.
    pub(crate) violations: List<Mark>,
    /// The exertions at those points that did nothing.
    pub(crate) voids: List<Mark>,
}

/// Adds a mark for the position at the point if it is wanted.
fn add_if(wanted: bool, point: Point, number: u32, marks: &mut List<Mark>) -> Result<(), Memory>
    ensures { OnOk result (marks.new ≡ marks.old ++ (if wanted then record { point = point; position = number } ∷ [] else [])) }
{
    if wanted {
        marks.push(Mark {
            point,
            position: number,
        })?;
    }
    Ok(())
}

/// Whether the story exerts the power at the point.
fn is_asked(story: &Story, point: Point, number: u32) -> bool
    ensures { IsTrue result ↔ Contains story.now.happenings (record { point = point; what = Exert number }) }
{
    story.holds(&Happening {
        point,
        what: What::Exert(number),
    })
}

/// Adds a mark for each position that is violated at the last point, which is this one.
fn add_violations(
    deed: &Deed,
    core: &Core,
    point: Point,
    marks: &mut List<Mark>,
) -> Result<(), Memory>
    requires { length deed.now.positions < 2 ^ 32 }
    ensures { (m : Moment) → Tells core.now deed.now m → point ≡ m.point
        → OnOk result (marks.new ≡ marks.old ++ marks_at is_violated m 0 deed.now.positions) }
{
    let mut number = 0;
    for _position in deed.positions.items() {
        let violated = core.happened(Kind::Violated, Target::Position(number));
        add_if(violated, point, number, marks)?;
        number += 1;
    }
    Ok(())
}

/// Whether the story exerts the power at the last point, which is this one, and it isn't exerted
/// there.
fn is_void(story: &Story, core: &Core, point: Point, number: u32) -> bool
    ensures { (deed : ADeed) (n : ℕ) (p : Position) → slice_get deed.positions number ≡ Some p
        → Tells core.now deed (moment_at deed story.now.happenings n)
        → point ≡ deed.start +ℤ pos n
        → result ≡ is_void (moment_at deed story.now.happenings n) number }
{
    is_asked(story, point, number) && !core.happened(Kind::Exerted, Target::Position(number))
}

/// Adds a mark for each power that the story exerts at the last point, which is this one, and that
/// isn't exerted there.
fn add_voids(
    deed: &Deed,
    story: &Story,
    core: &Core,
    point: Point,
    marks: &mut List<Mark>,
) -> Result<(), Memory>
    requires { length deed.now.positions < 2 ^ 32 }
    ensures { (n : ℕ) → Tells core.now deed.now (moment_at deed.now story.now.happenings n)
        → point ≡ deed.now.start +ℤ pos n
        → OnOk result (marks.new ≡ marks.old ++ marks_at is_void (moment_at deed.now story.now.happenings n) 0 deed.now.positions) }
{
    let mut number = 0;
    for _position in deed.positions.items() {
        let void = is_void(story, core, point, number);
        add_if(void, point, number, marks)?;
        number += 1;
    }
    Ok(())
}

/// The earlier of two points, each of which may be missing.
fn earlier(one: Option<Point>, other: Option<Point>) -> Option<Point>
    ensures { result ≡ coming.earlier one other }
{
    match (one, other) {
        (Some(a), Some(b)) => Some(a.min(b)),
        (Some(a), None) => Some(a),
        (None, b) => b,
    }
}

impl Course {
    /// No point is evaluated.
    fn new(alloc: Global, deed: &Deed) -> Result<Course, Memory>
        requires { IsSound deed.now }
        ensures start { IfOk result (λ course. (narrative : List Happened) → HasCome course deed.now narrative 0) }
        ensures made { IfOk result (λ course. IsMadeFor course.core deed.now) }
    {
        Ok(Course {
            core: Core::new(alloc, deed)?,
            violations: List::new(alloc),
            voids: List::new(alloc),
        })
    }

    /// The next wake point from now on, by what the story holds. Now isn't before the deed's start.
    fn next_wake(&self, deed: &Deed, story: &Story) -> Option<Point>
        requires sound { IsSound deed.now }
        requires begun { deed.now.start ≤ℤ next_point self.now.core }
        ensures { (n : ℕ) → StandsFor self.now.core deed.now story.now.happenings n
            → IsNextWake deed.now story.now.happenings n result }
    {
        earlier(self.core.next_wake(), story.next_after(self.core.now() - 1))
    }

    /// The next wake point from now to the last one.
    fn next_up_to(&self, deed: &Deed, story: &Story, last: Point) -> Option<Point>
        requires sound { IsSound deed.now }
        requires begun { deed.now.start ≤ℤ next_point self.now.core }
        ensures { (n : ℕ) → StandsFor self.now.core deed.now story.now.happenings n
            → IsNextUpTo deed.now story.now.happenings n last result }
    {
        match self.next_wake(deed, story) {
            Some(point) if point <= last => Some(point),
            _ => None,
        }
    }

    /// Goes on to a point that isn't before now, where no point before it is a wake point.
    fn skip_to(&mut self, point: Point)
        requires { next_point self.old.core ≤ℤ point }
        ensures come { (deed : ADeed) (narrative : List Happened) (n m : ℕ)
            → IsSound deed → HasCome self.old deed narrative n
            → point ≡ deed.start +ℤ pos (n + m) → NoneWakes deed narrative n m
            → HasCome self.new deed narrative (n + m) }
        ensures made { (deed : ADeed) → IsMadeFor self.old.core deed → IsMadeFor self.new.core deed }
        ensures point { next_point self.new.core ≡ point }
    {
        self.core.skip_to(point);
    }

    /// One more point is evaluated, in one step.
    fn step<L: Ledger>(
        &mut self,
        deed: &Deed,
        story: &Story,
        steps: &mut Steps<L>,
    ) -> Result<(), Memory>
        requires few { length deed.now.positions < 2 ^ 32 }
        requires sound { IsSound deed.now }
        requires made { IsMadeFor self.old.core deed.now }
        requires dated { IsDated deed.now.unit (next_point self.old.core) }
        ensures next { (n : ℕ) → HasCome self.old deed.now story.now.happenings n
            → OnOk result (HasCome self.new deed.now story.now.happenings (suc n)) }
        ensures made { IsMadeFor self.new.core deed.now }
        ensures point { next_point self.new.core ≡ next_point self.old.core +ℤ pos 1 }
        ensures ticks { steps.new ≡ steps.old + 1 }
    {
        let point = self.core.now();
        self.core.step_point(deed, story.at(point), steps);
        add_violations(deed, &self.core, point, &mut self.violations)?;
        add_voids(deed, story, &self.core, point, &mut self.voids)
    }

    /// The course from start to the last point, by what the story holds. It takes a step for each wake
    /// point.
    pub(crate) fn of<L: Ledger>(
        alloc: Global,
        deed: &Deed,
        story: &Story,
        last: Point,
        steps: &mut Steps<L>,
    ) -> Result<Course, Memory>
        requires few { length deed.now.positions < 2 ^ 32 }
        requires sound { IsSound deed.now }
        requires dated { IsDated deed.now.unit last }
        requires begun { deed.now.start ≤ℤ last }
        ensures come { IfOk result (λ course. HasCome course deed.now story.now.happenings (suc (nat_abs (last -ℤ deed.now.start)))) }
        ensures made { IfOk result (λ course. IsMadeFor course.core deed.now) }
        ensures ticks { steps.new ≤ steps.old + wakes deed.now story.now.happenings (suc (nat_abs (last -ℤ deed.now.start))) }
    {
        let mut course = Course::new(alloc, deed)?;
        while let Some(point) = course.next_up_to(deed, story, last) {
            course.skip_to(point);
            course.step(deed, story, steps)?;
        }
        course.skip_to(last + 1);
        Ok(course)
    }
}
