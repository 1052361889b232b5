ghost use Rattle.std.specs.Prelude.{◌≡◌, ◌*◌, ◌/◌, ◌≤◌, ◌≤ℤ◌, ◌+ℤ◌, pos, false};
ghost use Rattle.sy_base.specs.Dates.{units_of_day};
ghost use Rattle.sy_base.specs.Measures.{added, greatest_count, is_finer, minutes_of_measure};
ghost use Rattle.sy_base.specs.Points.{IsAddable, minutes_of_unit};

use crate::unit::minutes_of_unit;
use sy_base::{Duration, Measure, Point, TimeUnit};

/// How many minutes a count of a measure has.
fn minutes_of_count(count: u64, measure: Measure) -> u64
    requires { count ≤ greatest_count measure }
    ensures value { result ≡ count * minutes_of_measure measure }
    ensures bound { result ≤ 210379680 }
{
    match measure {
        Measure::Minutes => count,
        Measure::Hours => count * 60,
        Measure::Days => count * 1440,
        Measure::Weeks => count * 10080,
    }
}

/// How many units a duration has.
fn units_of_duration(unit: TimeUnit, duration: Duration) -> u64
    requires measure { is_finer duration.measure unit ≡ false }
    requires count { duration.count ≤ greatest_count duration.measure }
    ensures value { result
        ≡ duration.count * (minutes_of_measure duration.measure / minutes_of_unit unit) }
    ensures bound { result ≤ 146097 * units_of_day unit }
{
    minutes_of_count(duration.count, duration.measure) / minutes_of_unit(unit) as u64
}

/// The point a duration after another. The duration's measure isn't finer than the unit, and its
/// count spans at most 146,097 days, so the point is at most as many days later.
pub fn add(unit: TimeUnit, point: Point, duration: Duration) -> Point
    requires measure { is_finer duration.measure unit ≡ false }
    requires count { duration.count ≤ greatest_count duration.measure }
    requires point { IsAddable unit point }
    ensures value { result ≡ added unit point duration }
    ensures not_before { point ≤ℤ result }
    ensures not_after { result ≤ℤ (point +ℤ pos (146097 * units_of_day unit)) }
{
    point + units_of_duration(unit, duration) as i64
}
