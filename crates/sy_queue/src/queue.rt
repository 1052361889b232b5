ghost use Rattle.std.specs.Prelude.{◌≡◌, ◌≤◌, ◌<◌, ◌+◌, IfOk, reverse, slice_get};
ghost use Rattle.sy_queue.specs.Deadlines.{IsAscending, later_than, no_deadlines, with_point};
ghost use Rattle.sy_queue.specs.Machine.Keeping.{AreLaterBelow};

use std::alloc::Global;
use std::marker::Model;
use sy_base::{Memory, Point};

/// Points in ascending order. It has room for a number of them, and no call but `new` takes memory.
#[derive(Drop)]
pub struct DeadlineQueue {
    room: u32,
    /// From the last point to the earliest, so that the earliest are taken off the end.
    points: Vec<Point>,
}

impl Model for DeadlineQueue {
    ghost use Rattle.std.specs.Prelude.{◌-◌, length, reverse};
    ghost use Rattle.std.specs.Vec.{vec_capacity};
    ghost use Rattle.sy_queue.specs.Deadlines.{Deadlines};
    ghost use Rattle.sy_queue.specs.Machine.Keeping.{IsKept};

    ghost Value = { Deadlines };

    ghost view = { λ q. record { points = reverse q.points.items; spare = q.room - length q.points.items; room = q.room } };

    ghost invariant = { λ q. IsKept q.points.items q.room (vec_capacity q.points) };
}

/// How many of the points are later than this one: they stand in front of the others.
fn count_later(points: &[Point], point: Point) -> usize
    requires { IsAscending (reverse points.now) }
    ensures { AreLaterBelow point points.now result }
{
    points.partition_point(|other| point < *other)
}

impl DeadlineQueue {
    /// The empty queue with room for so many points.
    pub fn new(alloc: Global, room: u32) -> Result<DeadlineQueue, Memory>
        ensures { IfOk result (λ q. q ≡ no_deadlines room) }
    {
        Ok(DeadlineQueue {
            room,
            points: Vec::with_capacity(alloc, room as usize)?,
        })
    }

    /// How many points may still be put.
    pub fn spare(&self) -> u32
        ensures { result ≡ self.now.spare }
    {
        self.room - self.points.len() as u32
    }

    /// Puts a point in its place. It asks for spare of at least one, and lowers it by at most one.
    pub fn put(&mut self, point: Point)
        requires { 0 < self.old.spare }
        ensures points { self.new.points ≡ with_point point self.old.points }
        ensures spare { self.old.spare ≤ self.new.spare + 1 }
        ensures room { self.new.room ≡ self.old.room }
    {
        let place = count_later(&self.points, point);
        self.points.insert(place, point).unwrap();
    }

    /// The earliest point.
    pub fn least(&self) -> Option<Point>
        ensures first { result ≡ slice_get self.now.points 0 }
        ensures ascending { IsAscending self.now.points }
    {
        self.points.last().copied()
    }

    /// Removes the points up to this one, which goes too, however often it was put. The spare
    /// doesn't fall.
    pub fn pop_through(&mut self, point: Point)
        ensures points { self.new.points ≡ later_than point self.old.points }
        ensures spare { self.old.spare ≤ self.new.spare }
        ensures room { self.new.room ≡ self.old.room }
    {
        let later = count_later(&self.points, point);
        self.points.truncate(later);
    }

    /// Makes the other queue the same as this one. It asks that both were made with the same room.
    pub fn copy_into(&self, other: &mut DeadlineQueue)
        requires { other.old.room ≡ self.now.room }
        ensures { other.new ≡ self.now }
    {
        other.points.clear();
        other.points.extend_from_slice(&self.points).unwrap();
    }
}
