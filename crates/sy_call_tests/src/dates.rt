ghost use Rattle.std.specs.Prelude.{◌≡◌};
ghost use Rattle.sy_base.specs.Points.{IsDated};

use sy_base::TimeUnit::{Day, Hour, Minute};
use sy_base::{Duration, Measure, Point, TimeUnit};
use sy_time::DateFault::{NoSuchDay, OutOfRange, Shape, TooFine};
use sy_time::{DateFault, add, has_date_form, read_date, write_date};

#[test]
fn reads_dates(rt: HostRuntime) {
    let cases: [(TimeUnit, &str, Result<Point, DateFault>); 39] = [
        (Day, "2024-03-01", Ok(19783)),
        (Day, "1970-01-01", Ok(0)),
        (Day, "1969-12-31", Ok(-1)),
        (Day, "1900-01-01", Ok(-25567)),
        (Day, "2999-12-31", Ok(376199)),
        (Day, "2000-02-29", Ok(11016)),
        (Hour, "2024-03-01", Ok(474792)),
        (Hour, "2024-03-01T00", Ok(474792)),
        (Hour, "2024-03-01T09", Ok(474801)),
        (Hour, "1969-12-31T23", Ok(-1)),
        (Hour, "1900-01-01T00", Ok(-613608)),
        (Hour, "2999-12-31T23", Ok(9028799)),
        (Minute, "2024-03-01", Ok(28487520)),
        (Minute, "2024-03-01T09", Ok(28488060)),
        (Minute, "2024-03-01T09:30", Ok(28488090)),
        (Minute, "1969-12-31T23:59", Ok(-1)),
        (Minute, "1900-01-01T00:00", Ok(-36816480)),
        (Minute, "2999-12-31T23:59", Ok(541727999)),
        (Day, "2024-03-01T10", Err(TooFine)),
        (Day, "2024-03-01T10:00", Err(TooFine)),
        (Hour, "2024-03-01T10:00", Err(TooFine)),
        (Day, "2024-02-30T25", Err(TooFine)),
        (Day, "2024-02-30", Err(NoSuchDay)),
        (Day, "1900-02-29", Err(NoSuchDay)),
        (Day, "2024-13-01", Err(NoSuchDay)),
        (Day, "2024-00-10", Err(NoSuchDay)),
        (Day, "2024-01-00", Err(NoSuchDay)),
        (Hour, "2024-03-01T24", Err(NoSuchDay)),
        (Minute, "2024-03-01T09:60", Err(NoSuchDay)),
        (Day, "3000-02-30", Err(NoSuchDay)),
        (Day, "3000-01-01", Err(OutOfRange)),
        (Day, "1899-12-31", Err(OutOfRange)),
        (Day, "2024-3-1", Err(Shape)),
        (Day, "", Err(Shape)),
        (Day, "2024-03-011", Err(Shape)),
        (Day, "2024/03/01", Err(Shape)),
        (Day, "2024-0a-01", Err(Shape)),
        (Hour, "2024-03-01 09", Err(Shape)),
        (Minute, "2024-03-01T09.30", Err(Shape)),
    ];
    for (unit, text, answer) in cases {
        assert_eq!(rt; read_date(unit, text.as_bytes()), answer, "{text}");
    }
}

#[test]
fn knows_the_form_of_a_date(rt: HostRuntime) {
    let cases = [
        ("2024-03-01", true),
        ("2024-03-01T09", true),
        ("2024-03-01T09:30", true),
        ("9999-99-99T99:99", true),
        ("", false),
        ("2024-03-0", false),
        ("2024-03-011", false),
        ("2024-03-01T", false),
        ("2024-03-01T0930", false),
        ("2024-03-01t09", false),
        ("2024-03-01T09:3", false),
    ];
    for (text, answer) in cases {
        assert_eq!(rt; has_date_form(text.as_bytes()), answer, "{text}");
    }
}

fn is_written(unit: TimeUnit, point: Point, text: &str) -> bool
    requires { IsDated unit point }
{
    let mut buf = [b'?'; 16];
    let length = write_date(unit, point, &mut buf);
    &buf[..length] == text.as_bytes()
}

#[test]
fn writes_dates(rt: HostRuntime) {
    assert!(rt; is_written(Day, 19783, "2024-03-01"));
    assert!(rt; is_written(Day, -1, "1969-12-31"));
    assert!(rt; is_written(Day, -25567, "1900-01-01"));
    assert!(rt; is_written(Day, 376199, "2999-12-31"));
    assert!(rt; is_written(Hour, 474801, "2024-03-01T09"));
    assert!(rt; is_written(Hour, -1, "1969-12-31T23"));
    assert!(rt; is_written(Hour, -613608, "1900-01-01T00"));
    assert!(rt; is_written(Hour, 9028799, "2999-12-31T23"));
    assert!(rt; is_written(Minute, 28488090, "2024-03-01T09:30"));
    assert!(rt; is_written(Minute, -1, "1969-12-31T23:59"));
    assert!(rt; is_written(Minute, -36816480, "1900-01-01T00:00"));
    assert!(rt; is_written(Minute, 541727999, "2999-12-31T23:59"));
}

fn span(count: u64, measure: Measure) -> Duration
    ensures count { result.count ≡ count }
    ensures measure { result.measure ≡ measure }
{
    Duration { count, measure }
}

#[test]
fn adds_durations(rt: HostRuntime) {
    assert_eq!(rt; add(Day, 19783, span(10, Measure::Days)), 19793);
    assert_eq!(rt; add(Day, -1, span(2, Measure::Weeks)), 13);
    assert_eq!(rt; add(Hour, 5, span(3, Measure::Days)), 77);
    assert_eq!(rt; add(Minute, 0, span(90, Measure::Minutes)), 90);
    assert_eq!(rt; add(Day, 1398878, span(146097, Measure::Days)), 1544975);
}
