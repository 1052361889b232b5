ghost use Rattle.std.specs.Prelude.{◌≡◌, ℕ, ◌+◌, ◌*◌, ◌<◌, ◌≤◌, pos, neg_ℤ, ◌+ℤ◌, ◌*ℤ◌, ◌≤ℤ◌, take, drop, Some, Ok};
ghost use Rattle.jiff_core.specs.Date.{epoch_day};
ghost use Rattle.sy_base.specs.Dates.{written_date, text_length, time_in, text_of_date, date_text};
ghost use Rattle.sy_base.specs.Points.{minutes_of_unit, IsDated};
ghost use Rattle.sy_base.specs.declared.time.TimeUnit.{TimeUnit};
ghost use Rattle.sy_time.specs.Date.{date_of};

use crate::digits::{write_four, write_two};
use jiff_core::civil::Date;
use sy_base::{Point, TimeUnit};

/// The minutes from -9999-01-01, the first date of the calendar, to 1970-01-01.
const FIRST_MINUTE: i64 = 4_371_587 * 1440;

/// The first minute of a point, counted as points of the unit Minute are.
fn first_minute(unit: TimeUnit, point: Point) -> i64
    requires { IsDated unit point }
    ensures value { result ≡ point *ℤ pos (minutes_of_unit unit) }
    ensures low { neg_ℤ (pos 36816480) ≤ℤ result }
    ensures high { result ≤ℤ pos 541727999 }
{
    match unit {
        TimeUnit::Minute => point,
        TimeUnit::Hour => point * 60,
        TimeUnit::Day => point * 1440,
    }
}

/// The day in which a point begins, counted from -9999-01-01, and the minute of that day.
fn day_and_minute(unit: TimeUnit, point: Point) -> (u32, u16)
    requires { IsDated unit point }
    ensures value { point *ℤ pos (minutes_of_unit unit) +ℤ pos 6295085280
        ≡ pos (result.0 * 1440 + result.1) }
    ensures least { 4346020 ≤ result.0 }
    ensures greatest { result.0 ≤ 4747786 }
    ensures minute { result.1 < 1440 }
{
    let minutes = (first_minute(unit, point) + FIRST_MINUTE) as u64;
    ((minutes / 1440) as u32, (minutes % 1440) as u16)
}

/// The date of a day from 1900-01-01 to 2999-12-31, counted from -9999-01-01.
fn date_of_day(day: u32) -> Date
    requires least { 4346020 ≤ day }
    requires greatest { day ≤ 4747786 }
    ensures value { epoch_day result +ℤ pos 4371587 ≡ pos day }
    ensures not_before { pos 1900 ≤ℤ result.year }
    ensures not_after { result.year ≤ℤ pos 2999 }
{
    Date::from_days_since_min(day)
}

fn year_number(date: Date) -> u16
    requires not_before { pos 1900 ≤ℤ date.year }
    requires not_after { date.year ≤ℤ pos 2999 }
    ensures value { pos result ≡ date.year }
    ensures not_before { 1900 ≤ result }
    ensures not_after { result ≤ 2999 }
{
    date.year as u16
}

/// A date and a time in the form of the unit Minute. Cut after the day or the hour, it is a text in
/// the form of that unit.
fn minute_text(year: u16, month: u8, day: u8, hour: u8, minute: u8) -> [u8; 16]
    requires year { year < 10000 }
    requires month { month < 100 }
    requires day { day < 100 }
    requires hour { hour < 100 }
    requires minute { minute < 100 }
    ensures read { (unit : TimeUnit) → written_date (take (text_length unit) result)
        ≡ Some (record { year = year; month = month; day = day; time = time_in unit hour minute }) }
    ensures written { (unit : TimeUnit) → take (text_length unit) result
        ≡ text_of_date (record {
          year = year;
          month = month;
          day = day;
          time = time_in unit hour minute;
        }) }
{
    let (y1, y2, y3, y4) = write_four(year);
    let (m1, m2) = write_two(month);
    let (d1, d2) = write_two(day);
    let (h1, h2) = write_two(hour);
    let (n1, n2) = write_two(minute);
    [
        y1, y2, y3, y4, b'-', m1, m2, b'-', d1, d2, b'T', h1, h2, b':', n1, n2,
    ]
}

fn text_length(unit: TimeUnit) -> usize
    ensures value { result ≡ text_length unit }
    ensures bound { result ≤ 16 }
{
    match unit {
        TimeUnit::Minute => 16,
        TimeUnit::Hour => 13,
        TimeUnit::Day => 10,
    }
}

/// Copies that many bytes, from the first on.
fn copy_front(text: &[u8; 16], length: usize, buf: &mut [u8; 16])
    requires { length ≤ 16 }
    ensures front { take length buf.new ≡ take length text.now }
    ensures rest { drop length buf.new ≡ drop length buf.old }
{
    buf[..length].copy_from_slice(&text[..length]);
}

/// Writes the date of a point in the unit's own form at the front of `buf`, and says how many bytes
/// that is: 10 for Day, 13 for Hour, 16 for Minute. The rest of `buf` stays as it was.
pub fn write_date(unit: TimeUnit, point: Point, buf: &mut [u8; 16]) -> usize
    requires { IsDated unit point }
    ensures length { result ≡ text_length unit }
    ensures written { take result buf.new ≡ date_text unit point }
    // So the text is read back as the point.
    ensures text { date_of unit (take result buf.new) ≡ Ok point }
    ensures rest { drop result buf.new ≡ drop result buf.old }
{
    let (day, minute) = day_and_minute(unit, point);
    let date = date_of_day(day);
    let text = minute_text(
        year_number(date),
        date.month,
        date.day,
        (minute / 60) as u8,
        (minute % 60) as u8,
    );
    let length = text_length(unit);
    copy_front(&text, length, buf);
    length
}
