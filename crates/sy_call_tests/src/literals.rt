use std::test::Fail;
use sy_base::TimeUnit::{Day, Hour, Minute};
use sy_base::{Point, Text, TimeUnit};
use sy_literal::{content, date, number};

#[test]
fn reads_literals(rt: HostRuntime) -> Result<(), Fail> {
    let alloc = rt.alloc();
    let numbers: [(&str, Option<u64>); 6] = [
        ("0", Some(0)),
        ("007", Some(7)),
        ("000000000000000019", Some(19)),
        ("1000000000000000", Some(1_000_000_000_000_000)),
        ("1000000000000001", None),
        ("999999999999999999", None),
    ];
    for (text, value) in numbers {
        let text = Text::new(alloc, text.as_bytes())?;
        assert_eq!(rt; number(&text), value);
    }
    let contents = [
        ("\"\"", ""),
        ("\"Kg\"", "Kg"),
        ("\"a\\\"b\"", "a\"b"),
        ("\"\\\\n\"", "\\n"),
        ("\"\\\\\\\"\"", "\\\""),
    ];
    for (text, inside) in contents {
        let text = Text::new(alloc, text.as_bytes())?;
        assert_eq!(rt; content(alloc, &text)?.bytes(), inside.as_bytes());
    }
    let dates: [(TimeUnit, &str, Option<Point>); 8] = [
        (Day, "2024-03-01", Some(19783)),
        (Hour, "2024-03-01T09", Some(474801)),
        (Minute, "2024-03-01", Some(28487520)),
        (Day, "2024-03-01T00", None),
        (Day, "2023-02-29", None),
        (Day, "1899-12-31", None),
        (Day, "3000-01-01", None),
        (Day, "2024-3-1", None),
    ];
    for (unit, text, point) in dates {
        let text = Text::new(alloc, text.as_bytes())?;
        assert_eq!(rt; date(unit, &text), point);
    }
    Ok(())
}
