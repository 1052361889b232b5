ghost use Rattle.std.specs.Prelude.{◌≡◌, ◌<◌, IfSome, is_some};
ghost use Rattle.sy_base.specs.Dates.{time_text, written_date};

use crate::digits::{read_four, read_two};
use std::marker::Model;
use sy_base::TimeUnit;

/// The time of day that a text writes, and the unit of its form.
#[derive(Drop)]
pub(crate) struct TimeOfDay {
    pub form: TimeUnit,
    pub hour: u8,
    pub minute: u8,
}

impl Model for TimeOfDay {
    ghost use Rattle.sy_base.specs.Dates.{TimeOfDay as Time};

    ghost Value = { Time };

    ghost view = { λ t. record { form = t.form; hour = t.hour; minute = t.minute } };
}

/// The numbers that a text of a date writes.
#[derive(Drop)]
pub(crate) struct WrittenDate {
    pub year: u16,
    pub month: u8,
    pub day: u8,
    pub time: TimeOfDay,
}

impl Model for WrittenDate {
    ghost use Rattle.sy_base.specs.Dates.{WrittenDate as Date};

    ghost Value = { Date };

    ghost view = { λ d. record { year = d.year; month = d.month; day = d.day; time = d.time } };
}

/// The time of day that stands after a day.
fn read_time(bytes: &[u8]) -> Option<TimeOfDay>
    ensures value { result ≡ time_text bytes.now }
    ensures hour { IfSome result (λ t. t.hour < 100) }
    ensures minute { IfSome result (λ t. t.minute < 100) }
{
    match bytes {
        [] => Some(TimeOfDay {
            form: TimeUnit::Day,
            hour: 0,
            minute: 0,
        }),
        [b'T', a, b] => Some(TimeOfDay {
            form: TimeUnit::Hour,
            hour: read_two(*a, *b)?,
            minute: 0,
        }),
        [b'T', a, b, b':', c, d] => Some(TimeOfDay {
            form: TimeUnit::Minute,
            hour: read_two(*a, *b)?,
            minute: read_two(*c, *d)?,
        }),
        _ => None,
    }
}

/// What a text writes, if it has one of the three forms.
pub(crate) fn read_written(bytes: &[u8]) -> Option<WrittenDate>
    ensures value { result ≡ written_date bytes.now }
    ensures year { IfSome result (λ d. d.year < 10000) }
    ensures month { IfSome result (λ d. d.month < 100) }
    ensures day { IfSome result (λ d. d.day < 100) }
    ensures hour { IfSome result (λ d. d.time.hour < 100) }
    ensures minute { IfSome result (λ d. d.time.minute < 100) }
{
    let [a, b, c, d, b'-', e, f, b'-', g, h, rest @ ..] = bytes else {
        return None;
    };
    Some(WrittenDate {
        year: read_four(*a, *b, *c, *d)?,
        month: read_two(*e, *f)?,
        day: read_two(*g, *h)?,
        time: read_time(rest)?,
    })
}

/// Whether the bytes have the form of a date's text: `dddd-dd-dd`, `dddd-dd-ddTdd` or
/// `dddd-dd-ddTdd:dd`, where each `d` is a digit. It says nothing of the calendar.
pub fn has_date_form(bytes: &[u8]) -> bool
    ensures { result ≡ is_some (written_date bytes.now) }
{
    read_written(bytes).is_some()
}
