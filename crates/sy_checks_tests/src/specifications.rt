ghost use Rattle.std.specs.Prelude.{◌<◌, ◌^◌, length};

use crate::told::{BASE, Row, line_of, specification_of, wanted};
use std::alloc::{AllocError, Global};
use std::test::Fail;
use sy_base::{FileKind, Memory, Text};
use sy_lex::tokens;
use sy_spec::spec;
use sy_typing::{Plan, plan};

/// What the checks of a specification say: the line of its refusal, or nothing.
fn told(alloc: Global, source: &[u8]) -> Result<Text, Fail>
    requires { length source.now < 2 ^ 32 }
{
    let tokens = tokens(alloc, FileKind::Spec, source)?;
    let tree = spec(alloc, source, tokens.items())?;
    match plan(alloc, tree) {
        Ok(_plan) => Ok(Text::new(alloc, b"")?),
        Err(why) => line_of(alloc, &why),
    }
}

/// Whether each row is told what stands in it.
fn are_told(alloc: Global, rows: &[Row]) -> Result<(), Fail> {
    for row in rows {
        let source = specification_of(alloc, row)?;
        if source.len() > 2000 {
            return Err(Fail::from("a long row"));
        }
        let told = told(alloc, source.as_bytes())?;
        let wanted = wanted(alloc, "refused spec", row.told)?;
        if told.bytes() != wanted.as_bytes() {
            return Err(Fail::from(source));
        }
    }
    Ok(())
}

static NAMES_APART: [Row; 7] = [
    Row {
        types: "Z isAn Asset;",
        told: "4:1 DuplicateName Z",
        ..BASE
    },
    Row {
        types: "Q isA Role; R isA Role; Q isAn Asset; R isA Role;",
        told: "4:25 DuplicateName Q",
        ..BASE
    },
    Row {
        types: "Number isA Role;",
        told: "4:1 DuplicateName Number",
        ..BASE
    },
    Row {
        types: "G isAn Enumeration(X, Y, X);",
        told: "4:26 DuplicateName X",
        ..BASE
    },
    Row {
        types: "Q isA Role with n: Text, m: Text, n: Number;",
        told: "4:35 DuplicateName n",
        ..BASE
    },
    Row {
        parameters: "a: Number",
        told: "8:1 DuplicateName a",
        ..BASE
    },
    Row {
        sections: "Obligations a: O(a, b, true, happens(e));",
        told: "10:13 DuplicateName a",
        ..BASE
    },
];

static TYPES_KNOWN: [Row; 5] = [
    Row {
        types: "Q isA R;",
        told: "4:7 UnknownName R",
        ..BASE
    },
    Row {
        types: "Q isA Role with n: R, m: S;",
        told: "4:20 UnknownName R",
        ..BASE
    },
    Row {
        parameters: "x: Q",
        told: "6:15 UnknownName Q",
        ..BASE
    },
    Row {
        parameters: "x: Number, y: x",
        told: "6:26 UnknownName x",
        ..BASE
    },
    Row {
        declarations: "f: Q;",
        told: "9:4 UnknownName Q",
        ..BASE
    },
];

static CHAINS_END: [Row; 3] = [
    Row {
        types: "Q isA Q;",
        told: "4:1 CyclicIsA Q",
        ..BASE
    },
    Row {
        types: "T isA Q; Q isA R; R isA Q;",
        told: "4:10 CyclicIsA Q",
        ..BASE
    },
    Row {
        types: "R isA S; S isA T; T isA R;",
        told: "4:1 CyclicIsA R",
        ..BASE
    },
];

static ATTRIBUTES_APART: [Row; 4] = [
    Row {
        types: "Q isA Role with n: Text; R isA Q with m: Text, n: Text;",
        told: "4:48 DuplicateName n",
        ..BASE
    },
    Row {
        types: "R isA Q with n: Text; Q isA Role with n: Text;",
        told: "4:14 DuplicateName n",
        ..BASE
    },
    Row {
        types: "S isA R with n: Text; R isA Q; Q isA Role with n: Text;",
        told: "4:14 DuplicateName n",
        ..BASE
    },
    Row {
        declarations: "f: E with n := 1, n := 2;",
        told: "9:19 DuplicateName n",
        ..BASE
    },
];

static NAMES_KNOWN: [Row; 12] = [
    Row {
        sections: "Obligations o: O(a, c, true, happens(f));",
        told: "10:21 UnknownName c",
        ..BASE
    },
    Row {
        sections: "Obligations o: O(a, b, true, happens(f));",
        told: "10:38 UnknownName f",
        ..BASE
    },
    Row {
        sections: "Obligations o: O(a, b, true, happens(a));",
        told: "10:38 UnknownName a",
        ..BASE
    },
    Row {
        sections: "Obligations o: O(a, b, true, happens(e[m = 1]));",
        told: "10:40 UnknownName m",
        ..BASE
    },
    Row {
        sections: "Obligations o: O(a, b, holds(state(o) = Gone), happens(e));",
        told: "10:41 UnknownName Gone",
        ..BASE
    },
    Row {
        sections: "Obligations o: O(a, b, holds(state(contract) = Form), happens(e));",
        told: "10:48 UnknownName Form",
        ..BASE
    },
    Row {
        sections: "Powers p: P(a, b, true, suspends(q));",
        told: "10:34 UnknownName q",
        ..BASE
    },
    Row {
        types: "Q isA Role with n: Number;",
        declarations: "f: Q with n := f.n;",
        told: "9:16 UnknownName f",
        ..BASE
    },
    Row {
        types: "Q isA Role with n: Number;",
        declarations: "f: Q with n := g.n; g: Q with n := f.n;",
        told: "9:16 UnknownName g",
        ..BASE
    },
    Row {
        types: "Q isA Role with n: Number;",
        declarations: "f: Q with m := 1;",
        told: "9:11 UnknownName m",
        ..BASE
    },
    Row {
        sections: "Obligations o: O(a, c, holds(state(o) = Form), happens(e));",
        told: "10:21 UnknownName c",
        ..BASE
    },
    Row {
        sections: "Obligations o: O(a, b, not holds(state(o) = Violation), happens(e[n > 1]));",
        ..BASE
    },
];

static TYPES_RIGHT: [Row; 29] = [
    Row {
        types: "Q isA Number;",
        told: "4:7 WrongType Number",
        ..BASE
    },
    Row {
        types: "Q isA Role with Env n: Number;",
        told: "4:17 WrongType Env",
        ..BASE
    },
    Row {
        types: "Q isA Role with n: Z;",
        told: "4:17 WrongType n",
        ..BASE
    },
    Row {
        parameters: "x: E",
        told: "6:12 WrongType x",
        ..BASE
    },
    Row {
        declarations: "f: Number;",
        told: "9:1 WrongType f",
        ..BASE
    },
    Row {
        types: "Q isA Role with n: Number;",
        declarations: "f: Q;",
        told: "9:1 WrongType f",
        ..BASE
    },
    Row {
        types: "Q isA Role with n: Number;",
        declarations: "f: Q with n := \"x\";",
        told: "9:11 WrongType n",
        ..BASE
    },
    Row {
        sections: "Preconditions happens(e);",
        told: "10:15 WrongType happens",
        ..BASE
    },
    Row {
        sections: "Preconditions not (1 = 1 and 2 < \"x\");",
        told: "10:30 WrongType 2",
        ..BASE
    },
    Row {
        sections: "Obligations o: O(a, b, true, happens(exerted(o)));",
        told: "10:38 WrongType exerted",
        ..BASE
    },
    Row {
        sections: "Powers p: P(a, b, true, triggers(p));",
        told: "10:25 WrongType triggers",
        ..BASE
    },
    Row {
        sections: "Obligations o: O(a, e, true, happens(e));",
        told: "10:21 WrongType e",
        ..BASE
    },
    Row {
        types: "G isAn Enumeration(Fine, Poor); X isA G;",
        told: "4:39 WrongType G",
        ..BASE
    },
    Row {
        types: "Q isAn Event with Env a: Z;",
        told: "4:19 WrongType Env",
        ..BASE
    },
    Row {
        types: "G isAn Enumeration(Fine, Poor);",
        declarations: "q: G;",
        told: "9:1 WrongType q",
        ..BASE
    },
    Row {
        types: "G isAn Enumeration(Fine, Poor); Q isA Role with n: Text;",
        parameters: "g: G",
        declarations: "q: Q with n := g;",
        told: "9:11 WrongType n",
        ..BASE
    },
    Row {
        types: "Q isA Role with n: Text;",
        declarations: "q: Q with n := \"a\" * 2;",
        told: "9:11 WrongType n",
        ..BASE
    },
    Row {
        types: "Q isA Role with t: Text;",
        parameters: "k: Number, p: Q",
        sections: "Preconditions k = p.t;",
        told: "10:15 WrongType k",
        ..BASE
    },
    Row {
        sections: "Preconditions a = a;",
        told: "10:15 WrongType a",
        ..BASE
    },
    Row {
        types: "G isAn Enumeration(Fine, Poor);",
        parameters: "g: G",
        sections: "Preconditions 1 > 0 and (g < Fine);",
        told: "10:26 WrongType g",
        ..BASE
    },
    Row {
        parameters: "k: Number, x: Date",
        sections: "Preconditions k = 1 - 2 * x;",
        told: "10:23 WrongType 2",
        ..BASE
    },
    Row {
        types: "Q isA Role with t: Text;",
        parameters: "p: Q",
        sections: "Preconditions 2 = 1 + p.t;",
        told: "10:19 WrongType 1",
        ..BASE
    },
    Row {
        sections: "Obligations o: O(a, b, happens(e[n = true]), true);",
        told: "10:34 WrongType n",
        ..BASE
    },
    Row {
        sections: "Obligations o: O(a, b, happens(violated(w)), true); Powers w: P(a, b, true, terminates(contract));",
        told: "10:32 WrongType violated",
        ..BASE
    },
    Row {
        parameters: "k: Number",
        sections: "Obligations o: O(a, b, true, happensBefore(e, k));",
        told: "10:47 WrongType k",
        ..BASE
    },
    Row {
        parameters: "x: Date",
        sections: "Obligations o: O(a, b, true, happensAfter(e, x + x Days));",
        told: "10:50 WrongType x",
        ..BASE
    },
    Row {
        sections: "Powers w: P(a, b, true, discharges(contract));",
        told: "10:25 WrongType discharges",
        ..BASE
    },
    Row {
        sections: "Powers w: P(e, a, true, terminates(contract));",
        told: "10:13 WrongType e",
        ..BASE
    },
    Row {
        types: "G isAn Enumeration(Fine, Poor);",
        parameters: "k: Number, g: G",
        sections: "Preconditions k > 0 and g = Fine;",
        ..BASE
    },
];

static NUMBERS_IN_RANGE: [Row; 14] = [
    Row {
        sections: "Preconditions 1 = 1000000000000001;",
        told: "10:19 NumberOutOfRange 1000000000000001",
        ..BASE
    },
    Row {
        sections: "Preconditions 1 != 1000000000000000;",
        ..BASE
    },
    Row {
        sections: "Obligations o: O(a, b, true, happens(e[n = 1000000000000001]));",
        told: "10:44 NumberOutOfRange 1000000000000001",
        ..BASE
    },
    Row {
        sections: "Obligations o: O(a, b, true, happensBefore(e, 2024-01-01 + 146098 Days));",
        told: "10:60 NumberOutOfRange 146098",
        ..BASE
    },
    Row {
        sections: "Obligations o: O(a, b, true, happensBefore(e, 2024-01-01 + 146097 Days));",
        ..BASE
    },
    Row {
        types: "Q isAn Asset with n: Number;",
        declarations: "f: Q with n := 2 * 1000000000000001;",
        told: "9:20 NumberOutOfRange 1000000000000001",
        ..BASE
    },
    Row {
        sections: "Preconditions 1 = 1 + - 1000000000000001;",
        told: "10:25 NumberOutOfRange 1000000000000001",
        ..BASE
    },
    Row {
        sections: "Obligations o: O(a, b, happensAfter(e, time(e[n > 1000000000000001])), true);",
        told: "10:51 NumberOutOfRange 1000000000000001",
        ..BASE
    },
    Row {
        sections: "Obligations o: O(a, b, true, happensBefore(e, 2024-01-01 + 1 Days + 146098 Days));",
        told: "10:69 NumberOutOfRange 146098",
        ..BASE
    },
    Row {
        sections: "Obligations o: O(a, b, true, happensBefore(e, 2024-02-30 + 3506329 Hours));",
        told: "10:60 NumberOutOfRange 3506329",
        ..BASE
    },
    Row {
        sections: "Powers p: P(a, b, happensBefore(e, 2024-01-01 + 20872 Weeks), terminates(contract));",
        told: "10:49 NumberOutOfRange 20872",
        ..BASE
    },
    Row {
        sections: "Preconditions 1 = 1000000000000000; Constraints - 1000000000000000 < 1;",
        ..BASE
    },
    Row {
        sections: "Obligations o: O(a, b, true, happensBefore(e, 2024-01-01 + 146097 Days + 20871 Weeks));",
        ..BASE
    },
    Row {
        unit: "Minute",
        sections: "Obligations o: O(a, b, true, happensBefore(e, 2024-02-29T09:30 + 210379680 Minutes + 3506328 Hours));",
        ..BASE
    },
];

static CALENDAR: [Row; 10] = [
    Row {
        sections: "Preconditions 2024-02-30 = 2024-01-01;",
        told: "10:15 BadDate 2024-02-30",
        ..BASE
    },
    Row {
        sections: "Obligations o: O(a, b, true, happensBefore(e, 2024-01-01T09));",
        told: "10:47 BadDate 2024-01-01T09",
        ..BASE
    },
    Row {
        unit: "Hour",
        sections: "Obligations o: O(a, b, true, happensBefore(e, 2024-01-01T09));",
        ..BASE
    },
    Row {
        sections: "Obligations o: O(a, b, true, happensBefore(e, 2024-01-01 + 3 Hours));",
        told: "10:62 BadUnit Hours",
        ..BASE
    },
    Row {
        sections: "Obligations o: O(a, b, true, happensWithin(e, 2024-01-01 + 3 Hours, 2024-02-30));",
        told: "10:62 BadUnit Hours",
        ..BASE
    },
    Row {
        sections: "Obligations o: O(a, b, true, happensWithin(e, 2024-02-30 + 3 Hours, 2024-01-01));",
        told: "10:47 BadDate 2024-02-30",
        ..BASE
    },
    Row {
        types: "Q isAn Asset with on: Date;",
        declarations: "f: Q with on := 2024-13-01;",
        told: "9:17 BadDate 2024-13-01",
        ..BASE
    },
    Row {
        types: "F isAn Event with Env on: Date;",
        declarations: "f: F;",
        sections: "Obligations o: O(a, b, happensAfter(f, time(f[on = 2024-03-01T09]) + 1 Hours), true);",
        told: "10:52 BadDate 2024-03-01T09",
        ..BASE
    },
    Row {
        unit: "Hour",
        sections: "Obligations o: O(a, b, occurs(state(contract) = InEffect, 2024-01-01 + 1 Minutes, 1899-12-31), true);",
        told: "10:74 BadUnit Minutes",
        ..BASE
    },
    Row {
        sections: "Constraints 3000-01-01 = 2024-01-01;",
        told: "10:13 BadDate 3000-01-01",
        ..BASE
    },
];

static CONSEQUENTS: [Row; 6] = [
    Row {
        sections: "Obligations o: O(a, b, true, holds(state(contract) = InEffect));",
        told: "10:30 SituationInConsequent holds",
        ..BASE
    },
    Row {
        sections: "Obligations o: O(a, b, true, happens(e) or not holds(state(o) = Null));",
        told: "10:48 SituationInConsequent holds",
        ..BASE
    },
    Row {
        sections: "Surviving Obligations o: O(a, b, true, holds(state(o) = Null));",
        told: "10:40 SituationInConsequent holds",
        ..BASE
    },
    Row {
        sections: "Obligations o: O(a, b, holds(state(o) = Null), happens(e));",
        ..BASE
    },
    Row {
        sections: "Obligations o: O(a, b, true, true); q: holds(state(o) = Null) -> O(a, b, holds(state(o) = Null), holds(state(o) = Null));",
        told: "10:98 SituationInConsequent holds",
        ..BASE
    },
    Row {
        sections: "Postconditions holds(state(contract) = InEffect); Obligations o: O(a, b, holds(state(contract) = InEffect), occurs(state(contract) = InEffect, 2024-03-01, 2024-03-02));",
        ..BASE
    },
];

static ORDER: [Row; 5] = [
    Row {
        sections: "Obligations o: O(a, b, happens(fulfilled(o)), happens(e));",
        told: "10:13 InstantCycle Act(o) End(o)",
        ..BASE
    },
    Row {
        sections: "Obligations o: happens(violated(o)) -> O(a, b, true, happens(e));",
        told: "10:13 InstantCycle Trig(o) End(o)",
        ..BASE
    },
    Row {
        sections: "Obligations o: O(a, b, true, happens(completed(contract)));",
        told: "10:13 InstantCycle End(o) Contract",
        ..BASE
    },
    Row {
        sections: "Obligations o: O(a, b, true, happensBefore(e, time(fulfilled(o)) + 1 Days));",
        told: "10:13 InstantCycle End(o)",
        ..BASE
    },
    Row {
        sections: "Obligations o: happens(violated(q)) -> O(a, b, true, happens(e)); q: happens(violated(o)) -> O(b, a, true, happens(e));",
        told: "10:13 InstantCycle Trig(o) End(q) Trig(q) End(o)",
        ..BASE
    },
];

/// Texts with two faults: the earlier check is told, wherever it stands.
static IN_ORDER: [Row; 4] = [
    Row {
        types: "Q isA R; Z isA Role;",
        told: "4:10 DuplicateName Z",
        ..BASE
    },
    Row {
        sections: "Preconditions 1 = \"x\"; Obligations o: O(a, b, true, happens(f));",
        told: "10:61 UnknownName f",
        ..BASE
    },
    Row {
        sections: "Preconditions 1 = 1000000000000001 and 2 < \"x\";",
        told: "10:40 WrongType 2",
        ..BASE
    },
    Row {
        sections: "Preconditions 2024-02-30 = 2024-01-01 and 1 = 1000000000000001;",
        told: "10:47 NumberOutOfRange 1000000000000001",
        ..BASE
    },
];

#[test]
fn tells_the_first_fault(rt: HostRuntime) -> Result<(), Fail> {
    let alloc = rt.alloc();
    are_told(alloc, &NAMES_APART)?;
    are_told(alloc, &TYPES_KNOWN)?;
    are_told(alloc, &CHAINS_END)?;
    are_told(alloc, &ATTRIBUTES_APART)?;
    are_told(alloc, &NAMES_KNOWN)?;
    are_told(alloc, &TYPES_RIGHT)?;
    are_told(alloc, &NUMBERS_IN_RANGE)?;
    are_told(alloc, &CALENDAR)?;
    are_told(alloc, &CONSEQUENTS)?;
    are_told(alloc, &ORDER)?;
    are_told(alloc, &IN_ORDER)
}

/// A specification with so many obligations, declared events and atoms.
fn sized(alloc: Global, positions: u16, events: u16, atoms: u16) -> Result<String, AllocError> {
    let mut text = String::new(alloc);
    text.push_str(
        "Domain d\nZ isA Role;\nE isAn Event;\nendDomain\nContract C() unit Day\nDeclarations\na: Z;\n",
    )?;
    for event in 0..events {
        text.push_str(format!(in alloc; "e{event}: E;")?.as_str())?;
    }
    text.push_str("\nObligations\n")?;
    for position in 1..positions {
        text.push_str(format!(in alloc; "o{position}: O(a, a, true, true);")?.as_str())?;
    }
    text.push_str("o: O(a, a, happensAfter(e1, time(e1))")?;
    for _ in 2..atoms {
        text.push_str(" and happens(e1)")?;
    }
    text.push_str(", true);\nendContract\n")?;
    Ok(text)
}

#[test]
fn counts_up_to_the_limits(rt: HostRuntime) -> Result<(), Fail> {
    let alloc = rt.alloc();
    let cases = [
        (501, 501, 4001, "refused spec TooMany positions\n"),
        (500, 501, 4001, "refused spec TooMany events\n"),
        (500, 500, 4001, "refused spec TooMany atoms\n"),
        (500, 500, 4000, ""),
    ];
    for (positions, events, atoms, wanted) in cases {
        let source = sized(alloc, positions, events, atoms)?;
        assert!(rt; source.len() < 200_000);
        let told = told(alloc, source.as_bytes())?;
        assert!(rt; told.bytes() == wanted.as_bytes(), "{wanted}");
    }
    Ok(())
}

/// The text of the first node of a plan.
fn first_node(alloc: Global, plan: &Plan) -> Result<Text, Memory> {
    plan.node_text(alloc, 0)
}

/// The text of the first node of a specification, or the line of its refusal.
fn first_node_of(alloc: Global, source: &[u8]) -> Result<Text, Fail>
    requires { length source.now < 2 ^ 32 }
{
    let tokens = tokens(alloc, FileKind::Spec, source)?;
    let tree = spec(alloc, source, tokens.items())?;
    match plan(alloc, tree) {
        Ok(plan) => Ok(first_node(alloc, &plan)?),
        Err(why) => line_of(alloc, &why),
    }
}

#[test]
fn tells_the_text_of_a_node(rt: HostRuntime) -> Result<(), Fail> {
    let alloc = rt.alloc();
    let row = Row {
        sections: "Obligations o: O(a, b, true, happens(e));",
        ..BASE
    };
    let source = specification_of(alloc, &row)?;
    assert!(rt; source.len() < 2000);
    let text = first_node_of(alloc, source.as_bytes())?;
    assert_eq!(rt; text.bytes(), b"Trig(o)".as_slice());
    Ok(())
}
