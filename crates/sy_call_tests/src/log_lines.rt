ghost use Rattle.std.specs.Prelude.{IfOk, IsTrue, ◌<◌, ◌≤◌, ◌^◌, length};
ghost use Rattle.std.specs.List.{list_all};
ghost use Rattle.sy_core.specs.Limits.{is_few};
ghost use Rattle.sy_log.specs.Entries.{HasFewNames};

use std::alloc::Global;
use std::test::Fail;
use sy_base::{List, Memory, Refused, Text, TimeUnit};
use sy_core::{
    Act, AttrDecl, Choices, Deed, EventDecl, Form, Goal, Position, Prop, Target, ValueKind, Verb,
};
use sy_log::{Entry, print_entry, read_line};
use sy_report::refusal_text;

fn attr(alloc: Global, name: &[u8], kind: ValueKind) -> Result<AttrDecl, Memory> {
    Ok(AttrDecl {
        name: Text::new(alloc, name)?,
        kind,
    })
}

/// One attribute of each kind.
fn attrs(alloc: Global) -> Result<List<AttrDecl>, Memory> {
    let mut attrs = List::new(alloc);
    attrs.push(attr(alloc, b"sum", ValueKind::Number)?)?;
    attrs.push(attr(alloc, b"note", ValueKind::Text)?)?;
    attrs.push(attr(alloc, b"well", ValueKind::Boolean)?)?;
    attrs.push(attr(alloc, b"due", ValueKind::Date)?)?;
    attrs.push(attr(alloc, b"grade", ValueKind::Choice(0))?)?;
    Ok(attrs)
}

fn event(alloc: Global, name: &[u8], attrs: List<AttrDecl>) -> Result<EventDecl, Memory> {
    Ok(EventDecl {
        name: Text::new(alloc, name)?,
        attrs,
    })
}

fn events(alloc: Global) -> Result<List<EventDecl>, Memory>
    ensures { IfOk result (λ events. length events ≤ 2) }
{
    let mut events = List::new(alloc);
    events.push(event(alloc, b"paid", List::new(alloc))?)?;
    events.push(event(alloc, b"graded", attrs(alloc)?)?)?;
    Ok(events)
}

/// The names of two grades.
fn grades(alloc: Global) -> Result<Choices, Memory>
    ensures { IfOk result (λ choices. IsTrue (is_few (length choices.names))) }
{
    let mut names = List::new(alloc);
    names.push(Text::new(alloc, b"Prime")?)?;
    names.push(Text::new(alloc, b"Choice")?)?;
    Ok(Choices { names })
}

fn choices(alloc: Global) -> Result<List<Choices>, Memory>
    ensures { IfOk result (λ all. IsTrue (list_all (λ choices. is_few (length choices.names)) all)) }
{
    let mut choices = List::new(alloc);
    choices.push(grades(alloc)?)?;
    Ok(choices)
}

fn position(alloc: Global, name: &[u8], form: Form) -> Result<Position, Memory> {
    Ok(Position {
        name: Text::new(alloc, name)?,
        form,
        first: Text::new(alloc, b"a")?,
        second: Text::new(alloc, b"b")?,
        trigger: Prop::Const(true),
        antecedent: Prop::Const(true),
        goal: Goal::Act(Act {
            verb: Verb::Suspends,
            target: Target::Contract,
        }),
    })
}

fn positions(alloc: Global) -> Result<List<Position>, Memory>
    ensures { IfOk result (λ positions. length positions ≤ 2) }
{
    let mut positions = List::new(alloc);
    positions.push(position(alloc, b"oPay", Form::Obligation)?)?;
    positions.push(position(alloc, b"pStop", Form::Power)?)?;
    Ok(positions)
}

/// A deed in days, from 2024-01-02 on, which is 54 years, 13 leap days and a day after 1970-01-01.
fn deed(alloc: Global) -> Result<Deed, Memory>
    ensures { IfOk result HasFewNames }
{
    Ok(Deed {
        unit: TimeUnit::Day,
        start: 19_724,
        events: events(alloc)?,
        choices: choices(alloc)?,
        positions: positions(alloc)?,
        posts: List::new(alloc),
        order: List::new(alloc),
    })
}

/// The line of what a line says, or a word for it.
fn entry_text(alloc: Global, deed: &Deed, bytes: &[u8]) -> Result<Text, Refused>
    requires few { length bytes.now < 2 ^ 32 }
    requires few_names { HasFewNames deed.now }
{
    match read_line(alloc, deed, 7, bytes)? {
        Entry::Noted(happening) => Ok(print_entry(alloc, deed, &happening)?),
        Entry::Blank => Ok(Text::new(alloc, b"blank")?),
        Entry::Report(_) => Ok(Text::new(alloc, b"report")?),
    }
}

/// What is told of a line: what it says, or the line of its refusal.
fn told(alloc: Global, deed: &Deed, bytes: &[u8]) -> Result<Text, Fail>
    requires few { length bytes.now < 2 ^ 32 }
    requires few_names { HasFewNames deed.now }
{
    match entry_text(alloc, deed, bytes) {
        Ok(text) => Ok(text),
        Err(Refused::Refusal(refusal)) => Ok(refusal_text(alloc, &refusal)?),
        Err(Refused::Memory) => Err(Fail::from("memory")),
    }
}

/// A line, and what is told of it.
#[derive(Clone, Copy)]
struct Row {
    line: &'static str,
    told: &'static str,
}

/// Whether each row is told what stands in it.
fn are_told(alloc: Global, rows: &[Row]) -> Result<(), Fail> {
    let deed = deed(alloc)?;
    for row in rows {
        let line = row.line.as_bytes();
        if line.len() > 2000 {
            return Err(Fail::from("a long row"));
        }
        if told(alloc, &deed, line)?.bytes() != row.told.as_bytes() {
            return Err(Fail::from(row.line));
        }
    }
    Ok(())
}

static SAID: [Row; 7] = [
    Row {
        line: " \t// at",
        told: "blank",
    },
    Row {
        line: "report 1999-12-31",
        told: "report",
    },
    Row {
        line: "at 2024-01-02happens paid",
        told: "at 2024-01-02 happens paid",
    },
    Row {
        line: "at 2024-01-02 exert pStop // so",
        told: "at 2024-01-02 exert pStop",
    },
    Row {
        line: "at 2024-01-03 happens graded[grade:=Choice,sum:=-0012,note:=\"a\\\"b\\\\\",due:=2023-03-01,well:=true]",
        told: "at 2024-01-03 happens graded[sum := -12, note := \"a\\\"b\\\\\", well := true, due := 2023-03-01, grade := Choice]",
    },
    Row {
        line: "at 2024-01-02 happens graded[sum:=-0,note:=\"\",well:=false,due:=2024-03-01,grade:=Prime]",
        told: "at 2024-01-02 happens graded[sum := 0, note := \"\", well := false, due := 2024-03-01, grade := Prime]",
    },
    Row {
        line: "at 2024-01-02 happens graded[sum := 1000000000000000, note := \"\", well := false, due := 2024-03-01, grade := Prime]",
        told: "at 2024-01-02 happens graded[sum := 1000000000000000, note := \"\", well := false, due := 2024-03-01, grade := Prime]",
    },
];

static REFUSED: [Row; 16] = [
    Row {
        line: "at 2024-01-02 happens paid[]",
        told: "refused log 7 BadToken\n",
    },
    Row {
        line: "at 2024-01-02 happens paid 5",
        told: "refused log 7 BadToken\n",
    },
    Row {
        line: "at 2024-01-02 happens paid $",
        told: "refused log 7 BadToken\n",
    },
    Row {
        line: "at 2024-02-30 happens lost[sum := true]",
        told: "refused log 7 UnknownName\n",
    },
    Row {
        line: "at 2024-01-01 exert oPay",
        told: "refused log 7 UnknownName\n",
    },
    Row {
        line: "at 2024-02-30 happens paid[sum := 1]",
        told: "refused log 7 WrongValues\n",
    },
    Row {
        line: "at 2024-01-01 happens graded",
        told: "refused log 7 WrongValues\n",
    },
    Row {
        line: "at 2024-01-02 happens graded[sum:=1,sum:=1,note:=\"\",well:=false,due:=2024-03-01,grade:=Prime]",
        told: "refused log 7 WrongValues\n",
    },
    Row {
        line: "at 2024-01-02 happens graded[sum:=1,more:=1,note:=\"\",well:=false,due:=2024-03-01,grade:=Prime]",
        told: "refused log 7 WrongValues\n",
    },
    Row {
        line: "at 2024-01-02 happens graded[sum:=-1000000000000001,note:=\"\",well:=false,due:=2024-03-01,grade:=Prime]",
        told: "refused log 7 WrongValues\n",
    },
    Row {
        line: "at 2024-01-02 happens graded[sum:=1,note:=\"\",well:=false,due:=2024-02-30,grade:=Prime]",
        told: "refused log 7 WrongValues\n",
    },
    Row {
        line: "at 2024-01-02 happens graded[sum:=1,note:=\"\",well:=false,due:=2024-03-01,grade:=Poor]",
        told: "refused log 7 WrongValues\n",
    },
    Row {
        line: "at 2024-02-30 happens paid",
        told: "refused log 7 BadDate\n",
    },
    Row {
        line: "at 2024-01-02T10 exert pStop",
        told: "refused log 7 BadDate\n",
    },
    Row {
        line: "report 2023-02-29",
        told: "refused log 7 BadDate\n",
    },
    Row {
        line: "at 2024-01-01 happens paid",
        told: "refused log 7 TooEarly\n",
    },
];

#[test]
fn tells_what_a_line_says(rt: HostRuntime) -> Result<(), Fail> {
    are_told(rt.alloc(), &SAID)
}

#[test]
fn tells_the_first_fault(rt: HostRuntime) -> Result<(), Fail> {
    are_told(rt.alloc(), &REFUSED)
}
