ghost use Rattle.std.specs.Prelude.{◌≡◌, ◌<◌};
ghost use Rattle.sy_base.specs.Points.{minutes_of_unit};

use sy_base::TimeUnit;

/// How many minutes a unit has.
pub(crate) fn minutes_of_unit(unit: TimeUnit) -> u16
    ensures value { result ≡ minutes_of_unit unit }
    ensures some { 0 < result }
{
    match unit {
        TimeUnit::Minute => 1,
        TimeUnit::Hour => 60,
        TimeUnit::Day => 1440,
    }
}
