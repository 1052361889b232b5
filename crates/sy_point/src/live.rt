ghost use Rattle.std.specs.Prelude.{◌≡◌, ◌+◌, ◌<◌, ◌≤ℤ◌, ◌+ℤ◌, ℕ, suc, pos, Some, List, slice_get, true, false};
ghost use Rattle.sy_words.specs.declared.kind.Kind.TheVariants.{Exerted, Violated};
ghost use Rattle.sy_core.specs.declared.deed.Deed.{Deed};
ghost use Rattle.sy_core.specs.declared.event.Ev.TheVariants.{Inner};
ghost use Rattle.sy_core.specs.declared.happening.Happening.{Happening};
ghost use Rattle.sy_core.specs.declared.position.Position.{Position};
ghost use Rattle.sy_core.specs.declared.proposition.Prop.{Prop};
ghost use Rattle.sy_core.specs.Moments.{first_point};
ghost use Rattle.sy_core.specs.Chronicle.{chronicle, state_at, moment_at};
ghost use Rattle.sy_core.specs.Propositions.{verdict_at};
ghost use Rattle.sy_core.specs.Soundness.{IsOrdered};
ghost use Rattle.sy_quiet.specs.KnownWakes.{is_told};
ghost use Rattle.sy_point.specs.Standing.{IsMadeFor, StandsFor, HasNoneFrom, NoneWakes, IsNextWake, IsNotBefore, next_point, has_happened};
ghost use Rattle.sy_core.specs.Wakes.{is_wake_after};

use sy_base::Point;
use sy_core::{StateOf, Target, Verdict};
use sy_present::Present;
use sy_queue::DeadlineQueue;
use sy_words::Kind;

/// What a deed came to up to a point: its states, and the dates to come.
#[derive(Drop)]
pub struct Core {
    /// The point that is evaluated next.
    pub(crate) point: Point,
    /// What is kept of the points before it.
    pub(crate) present: Present,
    /// Whether the next point is a wake point whatever comes: start, or the one after a point at which
    /// something internal happened.
    pub(crate) fresh: bool,
    /// The dates to come that are known so far.
    pub(crate) queue: DeadlineQueue,
    /// Of each date term, whether its value is known.
    pub(crate) queued: Vec<bool>,
}

impl Core {
    /// The point that is evaluated next.
    pub fn now(&self) -> Point
        ensures point { result ≡ next_point self.now }
        ensures stands { (deed : Deed) (narrative : List Happening) (n : ℕ)
            → StandsFor self.now deed narrative n
            → result ≡ deed.start +ℤ pos n }
    {
        self.point
    }

    /// The target's state now.
    pub fn state(&self, target: Target) -> StateOf
        ensures { (deed : Deed) (narrative : List Happening) (n : ℕ)
            → IsMadeFor self.now deed → StandsFor self.now deed narrative n
            → result ≡ state_at deed narrative n target }
    {
        self.present.state(target)
    }

    /// The first point before now at which the position with this number was violated.
    pub fn violated_at(&self, position: u32) -> Option<Point>
        ensures { (deed : Deed) (narrative : List Happening) (n : ℕ) (p : Position)
            → IsMadeFor self.now deed → StandsFor self.now deed narrative n
            → slice_get deed.positions position ≡ Some p
            → result ≡ first_point (Inner Violated (Target.Position position)) (chronicle deed narrative n) }
    {
        self.present.violated_at(position)
    }

    /// The first point before now at which the power with this number was exerted.
    pub fn exerted_at(&self, position: u32) -> Option<Point>
        ensures { (deed : Deed) (narrative : List Happening) (n : ℕ) (p : Position)
            → IsMadeFor self.now deed → StandsFor self.now deed narrative n
            → slice_get deed.positions position ≡ Some p
            → result ≡ first_point (Inner Exerted (Target.Position position)) (chronicle deed narrative n) }
    {
        self.present.exerted_at(position)
    }

    /// Whether the internal event happened at the point that was evaluated last.
    pub fn happened(&self, kind: Kind, target: Target) -> bool
        ensures { result ≡ has_happened self.now kind target }
    {
        self.present.happened(kind, target)
    }

    /// The verdict of the deed's postcondition with this number at the point before now.
    pub fn post(&self, number: u32) -> Verdict
        ensures { (deed : Deed) (narrative : List Happening) (n : ℕ) (prop : Prop)
            → StandsFor self.now deed narrative (suc n)
            → slice_get deed.posts number ≡ Some prop
            → result ≡ verdict_at deed.unit (moment_at deed narrative n) (chronicle deed narrative n) prop }
    {
        self.present.post(number)
    }

    /// The next wake point from now on, by what is known so far: a happening from now on isn't.
    pub fn next_wake(&self) -> Option<Point>
        ensures next { (deed : Deed) (narrative : List Happening) (n : ℕ)
            → IsOrdered deed → StandsFor self.now deed narrative n
            → HasNoneFrom deed narrative n
            → IsNextWake deed narrative n result }
        ensures later { (deed : Deed) (narrative : List Happening) (n : ℕ)
            → IsOrdered deed → StandsFor self.now deed narrative n
            → IsNotBefore (deed.start +ℤ pos n) result }
        ensures none { (deed : Deed) (narrative : List Happening) (n m : ℕ)
            → IsOrdered deed → StandsFor self.now deed narrative n
            → ((k : ℕ) → k < m → is_told deed narrative (n + k) ≡ false)
            → IsNotBefore (deed.start +ℤ pos (n + m)) result
            → NoneWakes deed narrative n m }
        ensures wakes { (deed : Deed) (narrative : List Happening) (n m : ℕ)
            → IsOrdered deed → StandsFor self.now deed narrative n
            → NoneWakes deed narrative n m
            → result ≡ Some (deed.start +ℤ pos (n + m))
            → is_wake_after deed narrative (n + m) ≡ true }
    {
        if self.fresh {
            Some(self.point)
        } else {
            self.queue.least()
        }
    }

    /// Goes on to a point that isn't before now, where no point before it is a wake point.
    pub fn skip_to(&mut self, point: Point)
        requires { next_point self.old ≤ℤ point }
        ensures stands { (deed : Deed) (narrative : List Happening) (n m : ℕ)
            → IsOrdered deed → StandsFor self.old deed narrative n
            → point ≡ deed.start +ℤ pos (n + m) → NoneWakes deed narrative n m
            → StandsFor self.new deed narrative (n + m) }
        ensures made { (deed : Deed) → IsMadeFor self.old deed → IsMadeFor self.new deed }
        ensures point { next_point self.new ≡ point }
    {
        if self.point < point {
            self.point = point;
            self.fresh = false;
        }
    }
}
