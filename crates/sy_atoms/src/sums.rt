ghost use Rattle.std.specs.Prelude.{◌≡◌, ◌≤◌, length, IsTrue};
ghost use Rattle.std.specs.List.{list_all};
ghost use Rattle.sy_base.specs.Points.{IsDated};
ghost use Rattle.sy_core.specs.Moments.{all_added};
ghost use Rattle.sy_core.specs.Soundness.{is_duration_of};

use sy_base::{Duration, Point, TimeUnit};
use sy_time::add;

/// The point with all the durations added, from left to right. There are at most eight, each of the
/// unit, and the point is a date.
pub(crate) fn add_all(unit: TimeUnit, point: Point, durations: &[Duration]) -> Point
    requires dated { IsDated unit point }
    requires few { length durations.now ≤ 8 }
    requires sound { IsTrue (list_all (is_duration_of unit) durations.now) }
    ensures { result ≡ all_added unit point durations.now }
{
    let mut sum = point;
    for duration in durations {
        sum = add(unit, sum, *duration);
    }
    sum
}
