ghost use Rattle.std.specs.Prelude.{◌≡◌, ◌<◌, ◌↔◌, ℤ, pos, ◌+ℤ◌, ◌*ℤ◌, IfOk, IfSome, IsSome, IsTrue, Ok};
ghost use Rattle.jiff_core.specs.Calendar.{days_from_civil};
ghost use Rattle.jiff_core.specs.Date.{epoch_day};
ghost use Rattle.sy_base.specs.Dates as dates;
ghost use Rattle.sy_base.specs.Dates.{IsDateText, is_day, is_time, is_year, units_of_day, units_at};
ghost use Rattle.sy_base.specs.Points.{IsDated};
ghost use Rattle.sy_time.specs.Date.{date_of, point_or_fault};

use crate::unit::minutes_of_unit;
use crate::written::{WrittenDate, read_written};
use jiff::civil::Date;
use sy_base::{Point, TimeUnit};
use thiserror::Error;

/// What is wrong with the text of a date.
#[derive(Clone, Copy, Debug, PartialEq, Eq, Error)]
pub enum DateFault {
    /// The bytes have none of the three forms.
    #[error("not a date")]
    Shape,
    /// A part finer than the unit is written.
    #[error("finer than the unit")]
    TooFine,
    /// There is no such month, day, hour or minute.
    #[error("no such day")]
    NoSuchDay,
    /// The year isn't from 1900 to 2999.
    #[error("out of range")]
    OutOfRange,
}

fn is_finer_form(form: TimeUnit, unit: TimeUnit) -> bool
    ensures { result ≡ dates.is_finer_form form unit }
{
    minutes_of_unit(form) < minutes_of_unit(unit)
}

/// The day with these numbers, if the calendar has it.
fn civil_day(year: u16, month: u8, day: u8) -> Option<Date>
    requires year { year < 10000 }
    requires month { month < 100 }
    requires day { day < 100 }
    ensures some { IsTrue (is_day year month day) ↔ IsSome result }
    ensures value { IfSome result (λ date. epoch_day date ≡ days_from_civil (pos year) month day) }
{
    Date::new(year as i16, month as i8, day as i8).ok()
}

fn has_time(hour: u8, minute: u8) -> bool
    ensures { result ≡ is_time hour minute }
{
    hour < 24 && minute < 60
}

fn is_in_range(year: u16) -> bool
    ensures { result ≡ is_year year }
{
    1900 <= year && year <= 2999
}

/// The point of a time on the day with this number.
fn point_at(unit: TimeUnit, day: i32, hour: u8, minute: u8) -> Point
    ensures { result ≡ day *ℤ pos (units_of_day unit) +ℤ pos (units_at unit hour minute) }
{
    let day = day as i64;
    match unit {
        TimeUnit::Minute => day * 1440 + (hour as u16 * 60 + minute as u16) as i64,
        TimeUnit::Hour => day * 24 + hour as i64,
        TimeUnit::Day => day,
    }
}

/// The point of a date, or why it has none in the range.
fn dated_point(unit: TimeUnit, date: &WrittenDate) -> Result<Point, DateFault>
    requires year { date.now.year < 10000 }
    requires month { date.now.month < 100 }
    requires day { date.now.day < 100 }
    ensures { result ≡ point_or_fault unit date.now }
{
    let Some(day) = civil_day(date.year, date.month, date.day) else {
        return Err(DateFault::NoSuchDay);
    };
    let (hour, minute) = (date.time.hour, date.time.minute);
    if !has_time(hour, minute) {
        return Err(DateFault::NoSuchDay);
    }
    if !is_in_range(date.year) {
        return Err(DateFault::OutOfRange);
    }
    let number = day.to_plain().to_unix_epoch_day();
    Ok(point_at(unit, number, hour, minute))
}

/// The point of what a text of a date writes. A text in the form of a coarser unit means its first
/// point. `Shape` comes first, then `TooFine`, then `NoSuchDay`, then `OutOfRange`.
pub fn read_date(unit: TimeUnit, bytes: &[u8]) -> Result<Point, DateFault>
    ensures point { result ≡ date_of unit bytes.now }
    ensures text { (point : ℤ) → (result ≡ Ok point) ↔ IsDateText unit bytes.now point }
    ensures dated { IfOk result (IsDated unit) }
{
    let Some(date) = read_written(bytes) else {
        return Err(DateFault::Shape);
    };
    if is_finer_form(date.time.form, unit) {
        return Err(DateFault::TooFine);
    }
    dated_point(unit, &date)
}
