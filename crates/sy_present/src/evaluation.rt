ghost use Rattle.std.specs.Prelude.{◌≡◌, ◌≤ℤ◌, ◌+ℤ◌, ℕ, pos, List};
ghost use Rattle.sy_base.specs.Points.{IsDated};
ghost use Rattle.sy_core.specs.declared.happening.Happening.{Happening as Happened};
ghost use Rattle.sy_core.specs.Soundness.{IsSound};
ghost use Rattle.sy_quiet.specs.Exactly.{HasExactly};
ghost use Rattle.sy_present.specs.Standing.{IsMadeFor, StandsFor, IsEvaluated, last_point};

use crate::present::Present;
use sy_base::Point;
use sy_core::{Deed, Happening};

impl Present {
    /// Evaluates a point, which is a date of the deed's unit and isn't before the one that was
    /// evaluated last, in one pass. At it exactly these happenings stand. Answers whether anything
    /// internal happens there.
    pub fn evaluate(&mut self, deed: &Deed, point: Point, at: &[Happening]) -> bool
        requires sound { IsSound deed.now }
        requires made { IsMadeFor self.old deed.now }
        requires later { last_point self.old ≤ℤ point }
        requires dated { IsDated deed.now.unit point }
        ensures made { IsMadeFor self.new deed.now }
        ensures point { last_point self.new ≡ point }
        ensures evaluated { (narrative : List Happened) (n : ℕ) → StandsFor self.old deed.now narrative n
            → point ≡ deed.now.start +ℤ pos n
            → HasExactly narrative point at.now
            → IsEvaluated self.new result deed.now narrative n }
    {
        self.begin(deed, point);
        self.see_all(deed, at);
        self.fire_all(deed);
        self.settle(deed, point);
        self.eventful
    }
}
