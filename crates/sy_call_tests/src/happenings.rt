use std::alloc::Global;
use std::test::Fail;
use sy_base::{List, Text};
use sy_core::{Ev, Guard, Happening, StateOf, Target, Value, What, copy_states, matches};
use sy_words::{Cmp, Kind};

fn list_of<T: Drop>(alloc: Global, items: Vec<T>) -> Result<List<T>, Fail> {
    let mut list = List::new(alloc);
    for item in items {
        list.push(item)?;
    }
    Ok(list)
}

fn text(alloc: Global, bytes: &[u8]) -> Result<Value, Fail> {
    Ok(Value::Text(Text::new(alloc, bytes)?))
}

/// Each row: the value that stands there, the comparison, the guard's value, whether it is true.
#[test]
fn guards_compare_values(rt: HostRuntime) -> Result<(), Fail> {
    let alloc = rt.alloc();
    let rows = vec![in alloc;
        (Value::Number(5), Cmp::Eq, Value::Number(5), true),
        (Value::Number(5), Cmp::Ne, Value::Number(5), false),
        (Value::Number(-1), Cmp::Lt, Value::Number(0), true),
        (Value::Number(5), Cmp::Lt, Value::Number(5), false),
        (Value::Number(5), Cmp::Le, Value::Number(5), true),
        (Value::Number(6), Cmp::Gt, Value::Number(5), true),
        (Value::Number(5), Cmp::Gt, Value::Number(5), false),
        (Value::Number(4), Cmp::Ge, Value::Number(5), false),
        (Value::Number(5), Cmp::Ge, Value::Number(5), true),
        (Value::Date(10), Cmp::Lt, Value::Date(11), true),
        (Value::Date(10), Cmp::Eq, Value::Number(10), false),
        (Value::Date(10), Cmp::Ne, Value::Number(11), false),
        (text(alloc, b"Dock")?, Cmp::Eq, text(alloc, b"Dock")?, true),
        (
            text(alloc, b"Dock")?,
            Cmp::Eq,
            text(alloc, b"Docks")?,
            false
        ),
        (text(alloc, b"Dock")?, Cmp::Ne, text(alloc, b"Duck")?, true),
        (text(alloc, b"a")?, Cmp::Lt, text(alloc, b"b")?, false),
        (text(alloc, b"a")?, Cmp::Le, text(alloc, b"a")?, false),
        (Value::Boolean(true), Cmp::Eq, Value::Boolean(true), true),
        (Value::Boolean(true), Cmp::Ne, Value::Boolean(false), true),
        (Value::Boolean(false), Cmp::Lt, Value::Boolean(true), false),
        (Value::Choice(0, 1), Cmp::Eq, Value::Choice(0, 1), true),
        (Value::Choice(0, 1), Cmp::Ne, Value::Choice(0, 2), true),
        (Value::Choice(0, 1), Cmp::Eq, Value::Choice(1, 1), false),
        (Value::Choice(0, 1), Cmp::Ne, Value::Choice(1, 1), false),
        (Value::Choice(0, 1), Cmp::Lt, Value::Choice(0, 2), false),
    ]?;
    for (found, cmp, value, want) in rows {
        let guard = Guard {
            attr: 0,
            cmp,
            value,
        };
        let ev = Ev::Outer(3, list_of(alloc, vec![in alloc; guard]?)?);
        let what = What::Event(3, list_of(alloc, vec![in alloc; found]?)?);
        assert_eq!(rt; matches(&ev, &what), want, "{what:?} {ev:?}");
    }
    Ok(())
}

fn at_least(attr: u32, least: i64) -> Guard {
    Guard {
        attr,
        cmp: Cmp::Ge,
        value: Value::Number(least),
    }
}

/// Each row: an event and its guards, and whether event 3 with the values 10 and 20 matches.
#[test]
fn events_match(rt: HostRuntime) -> Result<(), Fail> {
    let alloc = rt.alloc();
    let values = list_of(alloc, vec![in alloc; Value::Number(10), Value::Number(20)]?)?;
    let what = What::Event(3, values);
    let rows = vec![in alloc;
        (3, Vec::new(alloc), true),
        (2, Vec::new(alloc), false),
        (3, vec![in alloc; at_least(1, 20)]?, true),
        (3, vec![in alloc; at_least(0, 11)]?, false),
        (3, vec![in alloc; at_least(2, 0)]?, false),
        (3, vec![in alloc; at_least(0, 10), at_least(1, 20)]?, true),
        (3, vec![in alloc; at_least(0, 10), at_least(1, 21)]?, false),
    ]?;
    for (event, guards, want) in rows {
        let ev = Ev::Outer(event, list_of(alloc, guards)?);
        assert_eq!(rt; matches(&ev, &what), want, "{ev:?}");
        assert!(rt; !matches(&ev, &What::Exert(event)));
    }
    assert!(rt;
        !matches(
            &Ev::Inner(Kind::Exerted, Target::Position(3)),
            &What::Exert(3)
        )
    );
    Ok(())
}

#[test]
fn copies(rt: HostRuntime) -> Result<(), Fail> {
    let alloc = rt.alloc();
    let values = vec![in alloc;
        text(alloc, b"Dock 1")?,
        Value::Number(7),
        Value::Boolean(true),
    ]?;
    let sale = Happening {
        point: 19_787,
        what: What::Event(1, list_of(alloc, values)?),
    };
    let exertion = Happening {
        point: 19_787,
        what: What::Exert(4),
    };
    assert_eq!(rt; sale.copy(alloc)?, sale);
    assert_eq!(rt; exertion.copy(alloc)?, exertion);
    assert!(rt; sale.copy(alloc)? != exertion);
    Ok(())
}

#[test]
fn states_are_copied(rt: HostRuntime) -> Result<(), Fail> {
    let states = [StateOf::InEffect, StateOf::Null];
    assert_eq!(rt;
        copy_states(rt.alloc(), &states)?.items(),
        states.as_slice()
    );
    Ok(())
}
