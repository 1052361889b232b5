ghost use Rattle.std.specs.Prelude.{◌<◌, ◌^◌, length};

use std::alloc::{AllocError, Global};
use std::test::Fail;
use sy_base::{FileKind, Text};
use sy_bind::deed;
use sy_binding::binding;
use sy_checks_tests::told::{BASE, Row, binding_of, line_of, specification_of, wanted};
use sy_lex::tokens;
use sy_samples::m;
use sy_spec::spec;
use sy_typing::{Plan, plan};

/// What the checks of a binding say beside a specification: the line of its refusal, or nothing.
fn told_beside(alloc: Global, plan: &Plan, bound: &[u8]) -> Result<Text, Fail>
    requires { length bound.now < 2 ^ 32 }
{
    let tokens = tokens(alloc, FileKind::Bind, bound)?;
    let tree = binding(alloc, bound, tokens.items())?;
    match deed(alloc, plan, &tree) {
        Ok(_deed) => Ok(Text::new(alloc, b"")?),
        Err(why) => line_of(alloc, &why),
    }
}

/// The same beside the text of a specification.
fn told(alloc: Global, source: &[u8], bound: &[u8]) -> Result<Text, Fail>
    requires source { length source.now < 2 ^ 32 }
    requires bound { length bound.now < 2 ^ 32 }
{
    let tokens = tokens(alloc, FileKind::Spec, source)?;
    let tree = spec(alloc, source, tokens.items())?;
    match plan(alloc, tree) {
        Ok(plan) => told_beside(alloc, &plan, bound),
        Err(why) => line_of(alloc, &why),
    }
}

/// Whether each row is told what stands in it.
fn are_told(alloc: Global, rows: &[Row]) -> Result<(), Fail> {
    for row in rows {
        let source = specification_of(alloc, row)?;
        let bound = binding_of(alloc, row)?;
        if source.len() > 2000 || bound.len() > 2000 {
            return Err(Fail::from("a long row"));
        }
        let told = told(alloc, source.as_bytes(), bound.as_bytes())?;
        let wanted = wanted(alloc, "refused", row.told)?;
        if told.bytes() != wanted.as_bytes() {
            return Err(Fail::from(format!(in alloc; "{source}{bound}")?));
        }
    }
    Ok(())
}

/// Names that are bound twice.
static REPEATED: [Row; 8] = [
    Row {
        parameters: "k: Number",
        bound: "k := 1; k := 2;",
        told: "bind 2:9 DuplicateParam k",
        ..BASE
    },
    Row {
        parameters: "k: Number, m: Number",
        bound: "m := 1; k := 1; m := 2; k := 2;",
        told: "bind 2:17 DuplicateParam m",
        ..BASE
    },
    Row {
        parameters: "k: Number",
        bound: "k := 1; k := 2; k := 3;",
        told: "bind 2:9 DuplicateParam k",
        ..BASE
    },
    Row {
        types: "Q isA Role with n: Text, m: Text;",
        parameters: "p: Q",
        bound: "p := {n := \"x\", m := \"y\", n := \"z\", m := \"z\"};",
        told: "bind 2:27 DuplicateParam n",
        ..BASE
    },
    Row {
        types: "Q isA Role with n: Text, m: Text;",
        parameters: "p: Q, q: Q",
        bound: "p := {n := \"x\", m := \"y\"}; q := {n := \"x\", m := \"y\", n := \"x\"};",
        told: "bind 2:54 DuplicateParam n",
        ..BASE
    },
    Row {
        types: "Q isA Role with n: Text, m: Text;",
        parameters: "p: Q, k: Number",
        bound: "p := {n := \"x\", n := \"y\"}; k := 1; k := 2;",
        told: "bind 2:36 DuplicateParam k",
        ..BASE
    },
    Row {
        bound: "x := 1; x := 2;",
        told: "bind 2:9 DuplicateParam x",
        ..BASE
    },
    Row {
        types: "Q isA Role with n: Text, m: Text;",
        parameters: "p: Q, m: Number, q: Q",
        bound: "p := {n := \"x\", m := \"y\"}; q := {m := \"x\", n := \"y\"}; m := 1;",
        ..BASE
    },
];

/// Bound names that are no parameters, or no attributes of them.
static EXTRA: [Row; 13] = [
    Row {
        bound: "x := 1;",
        told: "bind 2:1 ExtraParam x",
        ..BASE
    },
    Row {
        parameters: "k: Number",
        bound: "k := 1; y := 1; x := 1;",
        told: "bind 2:9 ExtraParam y",
        ..BASE
    },
    Row {
        bound: "a := {};",
        told: "bind 2:1 ExtraParam a",
        ..BASE
    },
    Row {
        bound: "Z := {};",
        told: "bind 2:1 ExtraParam Z",
        ..BASE
    },
    Row {
        parameters: "k: Number",
        bound: "k := 1; K := 1;",
        told: "bind 2:9 ExtraParam K",
        ..BASE
    },
    Row {
        types: "Q isA Role with n: Text, m: Text;",
        parameters: "p: Q",
        bound: "p := {n := \"x\", y := 1, m := \"z\", z := 1};",
        told: "bind 2:17 ExtraParam y",
        ..BASE
    },
    Row {
        parameters: "p: Z",
        bound: "p := {n := 1};",
        told: "bind 2:7 ExtraParam n",
        ..BASE
    },
    Row {
        types: "Q isA Role with n: Text; R isA Q with m: Text;",
        parameters: "p: Q",
        bound: "p := {n := \"x\", m := \"y\"};",
        told: "bind 2:17 ExtraParam m",
        ..BASE
    },
    Row {
        parameters: "k: Number",
        bound: "k := {n := 1};",
        told: "bind 2:7 ExtraParam n",
        ..BASE
    },
    Row {
        types: "G isAn Enumeration(Fine, Poor);",
        parameters: "g: G",
        bound: "g := {Fine := 1};",
        told: "bind 2:7 ExtraParam Fine",
        ..BASE
    },
    Row {
        types: "Q isA Role with n: Text, m: Text;",
        parameters: "p: Q",
        bound: "p := {y := 1}; x := 1;",
        told: "bind 2:7 ExtraParam y",
        ..BASE
    },
    Row {
        types: "Q isA Role with n: Text, m: Text;",
        parameters: "p: Q",
        bound: "x := 1; p := {y := 1};",
        told: "bind 2:1 ExtraParam x",
        ..BASE
    },
    Row {
        types: "R isA Q with m: Text; Q isA Role with n: Text;",
        parameters: "p: R",
        bound: "p := {m := \"x\", n := \"y\"};",
        ..BASE
    },
];

/// Parameters and attributes that aren't bound.
static MISSING: [Row; 14] = [
    Row {
        parameters: "k: Number",
        told: "bind MissingParam k",
        ..BASE
    },
    Row {
        parameters: "k: Number, m: Number, n: Number",
        bound: "k := 1;",
        told: "bind MissingParam m",
        ..BASE
    },
    Row {
        parameters: "k: Number, p: Z",
        bound: "k := 1;",
        told: "bind MissingParam p",
        ..BASE
    },
    Row {
        types: "Q isA Role with n: Text, m: Text;",
        parameters: "p: Q",
        bound: "p := {};",
        told: "bind MissingParam p.n",
        ..BASE
    },
    Row {
        types: "Q isA Role with n: Text, m: Text;",
        parameters: "p: Q",
        bound: "p := {n := \"x\"};",
        told: "bind MissingParam p.m",
        ..BASE
    },
    Row {
        types: "R isA Q with m: Text; Q isA Role with n: Text;",
        parameters: "p: R",
        bound: "p := {};",
        told: "bind MissingParam p.n",
        ..BASE
    },
    Row {
        types: "R isA Q with m: Text; Q isA Role with n: Text;",
        parameters: "p: R",
        bound: "p := {n := \"x\"};",
        told: "bind MissingParam p.m",
        ..BASE
    },
    Row {
        types: "Q isA Role with n: Text, m: Text;",
        parameters: "p: Q, k: Number",
        bound: "p := {};",
        told: "bind MissingParam p.n",
        ..BASE
    },
    Row {
        types: "Q isA Role with n: Text, m: Text;",
        parameters: "k: Number, p: Q",
        bound: "p := {};",
        told: "bind MissingParam k",
        ..BASE
    },
    Row {
        types: "Q isA Role with n: Text, m: Text;",
        parameters: "p: Q, q: Q",
        bound: "q := {n := \"x\"}; p := {m := \"x\", n := \"y\"};",
        told: "bind MissingParam q.m",
        ..BASE
    },
    Row {
        types: "Q isA Role with n: Text, m: Text;",
        parameters: "p: Q",
        bound: "p := 1;",
        told: "bind MissingParam p.n",
        ..BASE
    },
    Row {
        types: "Q isAn Asset with n: Number;",
        parameters: "p: Q",
        bound: "p := a;",
        told: "bind MissingParam p.n",
        ..BASE
    },
    Row {
        parameters: "p: Z",
        bound: "p := { };",
        ..BASE
    },
    Row { ..BASE },
];

/// Values that aren't of their types.
static MISTYPED: [Row; 19] = [
    Row {
        parameters: "k: Number",
        bound: "k := \"x\";",
        told: "bind 2:6 WrongParamType \"x\"",
        ..BASE
    },
    Row {
        parameters: "k: Number, m: Text",
        bound: "m := 1; k := \"x\";",
        told: "bind 2:6 WrongParamType 1",
        ..BASE
    },
    Row {
        parameters: "t: Text",
        bound: "t := - 5;",
        told: "bind 2:6 WrongParamType -",
        ..BASE
    },
    Row {
        parameters: "k: Number",
        bound: "k := true;",
        told: "bind 2:6 WrongParamType true",
        ..BASE
    },
    Row {
        parameters: "x: Date",
        bound: "x := false;",
        told: "bind 2:6 WrongParamType false",
        ..BASE
    },
    Row {
        parameters: "x: Boolean",
        bound: "x := 1;",
        told: "bind 2:6 WrongParamType 1",
        ..BASE
    },
    Row {
        parameters: "x: Date",
        bound: "x := 20240301;",
        told: "bind 2:6 WrongParamType 20240301",
        ..BASE
    },
    Row {
        parameters: "k: Number",
        bound: "k := 2024-02-30;",
        told: "bind 2:6 WrongParamType 2024-02-30",
        ..BASE
    },
    Row {
        types: "Q isA Role with n: Text, m: Text;",
        parameters: "p: Q",
        bound: "p := {m := \"x\", n := 1};",
        told: "bind 2:22 WrongParamType 1",
        ..BASE
    },
    Row {
        types: "Q isA Role with n: Text; R isA Q with m: Text;",
        parameters: "p: R",
        bound: "p := {m := \"x\", n := -1};",
        told: "bind 2:22 WrongParamType -",
        ..BASE
    },
    Row {
        parameters: "k: Number",
        bound: "k := {};",
        told: "bind 2:6 WrongParamType {",
        ..BASE
    },
    Row {
        types: "G isAn Enumeration(Fine, Poor);",
        parameters: "k: Number, g: G",
        bound: "k := 1; g := {};",
        told: "bind 2:14 WrongParamType {",
        ..BASE
    },
    Row {
        parameters: "p: Z",
        bound: "p := 1;",
        told: "bind 2:6 WrongParamType 1",
        ..BASE
    },
    Row {
        parameters: "p: Z",
        bound: "p := a;",
        told: "bind 2:6 WrongParamType a",
        ..BASE
    },
    Row {
        types: "G isAn Enumeration(Fine, Poor); H isAn Enumeration(Red, Blue);",
        parameters: "g: G",
        bound: "g := Red;",
        told: "bind 2:6 WrongParamType Red",
        ..BASE
    },
    Row {
        types: "G isAn Enumeration(Fine, Poor);",
        parameters: "g: G",
        bound: "g := Best;",
        told: "bind 2:6 WrongParamType Best",
        ..BASE
    },
    Row {
        types: "G isAn Enumeration(Fine, Poor);",
        parameters: "k: Number",
        bound: "k := Fine;",
        told: "bind 2:6 WrongParamType Fine",
        ..BASE
    },
    Row {
        types: "G isAn Enumeration(Fine, Poor); Q isA Role with g: G;",
        parameters: "p: Q",
        bound: "p := {g := 1};",
        told: "bind 2:12 WrongParamType 1",
        ..BASE
    },
    Row {
        types: "G isAn Enumeration(Fine, Poor);",
        parameters: "k: Number, t: Text, x: Boolean, y: Date, g: G",
        bound: "k := -5; t := \"\"; x := false; y := 2024-03-08; g := Poor;",
        ..BASE
    },
];

/// Dates that the unit doesn't have.
static UNDATED: [Row; 18] = [
    Row {
        start: "2024-02-30",
        told: "bind 1:7 BadDate 2024-02-30",
        ..BASE
    },
    Row {
        start: "2024-03-01T09",
        told: "bind 1:7 BadDate 2024-03-01T09",
        ..BASE
    },
    Row {
        unit: "Hour",
        start: "2024-03-01T09",
        ..BASE
    },
    Row {
        unit: "Hour",
        start: "2024-03-01T24",
        told: "bind 1:7 BadDate 2024-03-01T24",
        ..BASE
    },
    Row {
        unit: "Hour",
        start: "2024-03-01T09:30",
        told: "bind 1:7 BadDate 2024-03-01T09:30",
        ..BASE
    },
    Row {
        unit: "Minute",
        start: "2024-03-01T09:30",
        ..BASE
    },
    Row {
        unit: "Minute",
        start: "2024-03-01T09:60",
        told: "bind 1:7 BadDate 2024-03-01T09:60",
        ..BASE
    },
    Row {
        unit: "Minute",
        start: "2024-03-01",
        ..BASE
    },
    Row {
        start: "1899-12-31",
        told: "bind 1:7 BadDate 1899-12-31",
        ..BASE
    },
    Row {
        start: "1900-01-01",
        ..BASE
    },
    Row {
        start: "3000-01-01",
        told: "bind 1:7 BadDate 3000-01-01",
        ..BASE
    },
    Row {
        start: "2999-12-31",
        ..BASE
    },
    Row {
        parameters: "x: Date",
        bound: "x := 2023-02-29;",
        told: "bind 2:6 BadDate 2023-02-29",
        ..BASE
    },
    Row {
        parameters: "x: Date",
        bound: "x := 2024-02-29;",
        ..BASE
    },
    Row {
        parameters: "x: Date, y: Date",
        bound: "y := 2024-04-31; x := 2024-02-30;",
        told: "bind 2:6 BadDate 2024-04-31",
        ..BASE
    },
    Row {
        parameters: "x: Date",
        start: "2024-02-30",
        bound: "x := 2024-02-31;",
        told: "bind 1:7 BadDate 2024-02-30",
        ..BASE
    },
    Row {
        types: "Q isAn Asset with on: Date;",
        parameters: "p: Q",
        bound: "p := {on := 2024-13-01};",
        told: "bind 2:13 BadDate 2024-13-01",
        ..BASE
    },
    Row {
        types: "Q isAn Asset with on: Date;",
        parameters: "p: Q, x: Date",
        bound: "p := {on := 2024-03-01}; x := 2900-02-29;",
        told: "bind 2:31 BadDate 2900-02-29",
        ..BASE
    },
];

/// Numbers of a binding above 10^15.
static GREAT: [Row; 10] = [
    Row {
        parameters: "k: Number",
        bound: "k := 1000000000000001;",
        told: "bind 2:6 NumberOutOfRange 1000000000000001",
        ..BASE
    },
    Row {
        parameters: "k: Number",
        bound: "k := 1000000000000000;",
        ..BASE
    },
    Row {
        parameters: "k: Number",
        bound: "k := -1000000000000001;",
        told: "bind 2:7 NumberOutOfRange 1000000000000001",
        ..BASE
    },
    Row {
        parameters: "k: Number",
        bound: "k := -1000000000000000;",
        ..BASE
    },
    Row {
        parameters: "k: Number, m: Number",
        bound: "m := 1000000000000001; k := 1000000000000002;",
        told: "bind 2:6 NumberOutOfRange 1000000000000001",
        ..BASE
    },
    Row {
        types: "Q isAn Asset with n: Number;",
        parameters: "p: Q",
        bound: "p := {n := 1000000000000001};",
        told: "bind 2:12 NumberOutOfRange 1000000000000001",
        ..BASE
    },
    Row {
        types: "Q isAn Asset with n: Number, m: Number;",
        parameters: "p: Q",
        bound: "p := {n := 1000000000000000, m := - 1000000000000001};",
        told: "bind 2:37 NumberOutOfRange 1000000000000001",
        ..BASE
    },
    Row {
        types: "Q isAn Asset with n: Number;",
        parameters: "p: Q",
        bound: "p := {n := 1000000000000000};",
        ..BASE
    },
    Row {
        parameters: "k: Number",
        bound: "k := 999999999999999999;",
        told: "bind 2:6 NumberOutOfRange 999999999999999999",
        ..BASE
    },
    Row {
        parameters: "k: Number",
        bound: "k := 001000000000000000;",
        ..BASE
    },
];

/// Terms that leave -10^15 to 10^15 under the values of a binding.
static TERMS: [Row; 23] = [
    Row {
        parameters: "k: Number",
        sections: "Preconditions k + 1 > 0;",
        bound: "k := 1000000000000000;",
        told: "spec 10:15 NumberOutOfRange k",
        ..BASE
    },
    Row {
        parameters: "k: Number",
        sections: "Preconditions k + 1 > 0;",
        bound: "k := 999999999999999;",
        ..BASE
    },
    Row {
        parameters: "k: Number",
        sections: "Preconditions 0 - k - 1 < 0;",
        bound: "k := 1000000000000000;",
        told: "spec 10:15 NumberOutOfRange 0",
        ..BASE
    },
    Row {
        parameters: "k: Number",
        sections: "Preconditions 0 - k - 1 < 0;",
        bound: "k := 999999999999999;",
        ..BASE
    },
    Row {
        parameters: "k: Number",
        sections: "Preconditions k + 1 - 1 > 0;",
        bound: "k := 1000000000000000;",
        told: "spec 10:15 NumberOutOfRange k",
        ..BASE
    },
    Row {
        parameters: "k: Number",
        sections: "Preconditions k - 1 + 1 > 0;",
        bound: "k := 1000000000000000;",
        ..BASE
    },
    Row {
        parameters: "k: Number",
        sections: "Preconditions 0 = k * 2 * 0;",
        bound: "k := 500000000000001;",
        told: "spec 10:19 NumberOutOfRange k",
        ..BASE
    },
    Row {
        parameters: "k: Number",
        sections: "Preconditions 0 = k * 2 * 0;",
        bound: "k := 500000000000000;",
        ..BASE
    },
    Row {
        parameters: "k: Number",
        sections: "Preconditions 0 = k * 0 * 2;",
        bound: "k := 500000000000001;",
        ..BASE
    },
    Row {
        parameters: "k: Number",
        sections: "Preconditions - 1 + k * 2 > 0;",
        bound: "k := 500000000000001;",
        told: "spec 10:15 NumberOutOfRange -",
        ..BASE
    },
    Row {
        parameters: "k: Number",
        sections: "Preconditions k * k * k > 0;",
        bound: "k := 1000000000000000;",
        told: "spec 10:15 NumberOutOfRange k",
        ..BASE
    },
    Row {
        parameters: "k: Number",
        sections: "Preconditions k + 1 < k + 2;",
        bound: "k := 1000000000000000;",
        told: "spec 10:15 NumberOutOfRange k",
        ..BASE
    },
    Row {
        parameters: "k: Number",
        sections: "Preconditions not (1 = 1 or 2 > k * 2);",
        bound: "k := 1000000000000000;",
        told: "spec 10:33 NumberOutOfRange k",
        ..BASE
    },
    Row {
        types: "Q isAn Asset with n: Number;",
        parameters: "p: Q",
        sections: "Postconditions true or 1 < p.n + 1;",
        bound: "p := {n := 1000000000000000};",
        told: "spec 10:28 NumberOutOfRange p",
        ..BASE
    },
    Row {
        types: "Q isAn Asset with n: Number;",
        parameters: "k: Number",
        declarations: "f: Q with n := k * 2; g: Q with n := f.n;",
        bound: "k := 500000000000001;",
        told: "spec 9:16 NumberOutOfRange k",
        ..BASE
    },
    Row {
        types: "Q isAn Asset with n: Number;",
        parameters: "k: Number",
        declarations: "f: Q with n := k * 2; g: Q with n := f.n;",
        bound: "k := 500000000000000;",
        ..BASE
    },
    Row {
        types: "Q isAn Asset with n: Number;",
        parameters: "k: Number",
        declarations: "f: Q with n := k; g: Q with n := f.n + 1;",
        sections: "Preconditions k + 1 > 0;",
        bound: "k := 1000000000000000;",
        told: "spec 9:34 NumberOutOfRange f",
        ..BASE
    },
    Row {
        parameters: "k: Number",
        sections: "Obligations o: O(a, b, true, happens(e[n > 1, n < k + 1]));",
        bound: "k := 1000000000000000;",
        told: "spec 10:51 NumberOutOfRange k",
        ..BASE
    },
    Row {
        parameters: "k: Number",
        sections: "Obligations o: O(a, b, true, happens(e[n > 1, n < k + 1]));",
        bound: "k := 999999999999999;",
        ..BASE
    },
    Row {
        parameters: "k: Number",
        sections: "Obligations o: O(a, b, true, happensBefore(e, time(e[n = k + 1]) + 1 Days));",
        bound: "k := 1000000000000000;",
        told: "spec 10:58 NumberOutOfRange k",
        ..BASE
    },
    Row {
        parameters: "k: Number",
        sections: "Obligations o: 0 - k - 1 < 0 -> O(a, b, 0 < k - 1, true);",
        bound: "k := 1000000000000000;",
        told: "spec 10:16 NumberOutOfRange 0",
        ..BASE
    },
    Row {
        parameters: "k: Number",
        sections: "Surviving Obligations o: O(a, b, 0 < k + 1, true); Powers p: P(a, b, 0 < k + 1, terminates(contract));",
        bound: "k := 1000000000000000;",
        told: "spec 10:38 NumberOutOfRange k",
        ..BASE
    },
    Row {
        parameters: "k: Number",
        sections: "Preconditions false; Constraints 0 < k + 1;",
        bound: "k := 1000000000000000;",
        told: "spec 10:38 NumberOutOfRange k",
        ..BASE
    },
];

/// Counts that are negative, or above the limits of their measures.
static COUNTS: [Row; 14] = [
    Row {
        parameters: "k: Number",
        sections: "Obligations o: O(a, b, true, happensBefore(e, 2024-01-01 + k Days));",
        bound: "k := -1;",
        told: "spec 10:60 NumberOutOfRange k",
        ..BASE
    },
    Row {
        parameters: "k: Number",
        sections: "Obligations o: O(a, b, true, happensBefore(e, 2024-01-01 + k Days));",
        bound: "k := 0;",
        ..BASE
    },
    Row {
        parameters: "k: Number",
        sections: "Obligations o: O(a, b, true, happensBefore(e, 2024-01-01 + k Days));",
        bound: "k := 146098;",
        told: "spec 10:60 NumberOutOfRange k",
        ..BASE
    },
    Row {
        parameters: "k: Number",
        sections: "Obligations o: O(a, b, true, happensBefore(e, 2024-01-01 + k Days));",
        bound: "k := 146097;",
        ..BASE
    },
    Row {
        parameters: "k: Number",
        sections: "Obligations o: O(a, b, true, happensBefore(e, 2024-01-01 + k Weeks));",
        bound: "k := 20872;",
        told: "spec 10:60 NumberOutOfRange k",
        ..BASE
    },
    Row {
        parameters: "k: Number",
        sections: "Obligations o: O(a, b, true, happensBefore(e, 2024-01-01 + k Weeks));",
        bound: "k := 20871;",
        ..BASE
    },
    Row {
        parameters: "k: Number",
        unit: "Hour",
        sections: "Obligations o: O(a, b, true, happensBefore(e, 2024-01-01 + k Hours));",
        bound: "k := 3506329;",
        told: "spec 10:60 NumberOutOfRange k",
        ..BASE
    },
    Row {
        parameters: "k: Number",
        unit: "Hour",
        sections: "Obligations o: O(a, b, true, happensBefore(e, 2024-01-01 + k Hours));",
        bound: "k := 3506328;",
        ..BASE
    },
    Row {
        parameters: "k: Number",
        unit: "Minute",
        sections: "Obligations o: O(a, b, true, happensBefore(e, 2024-01-01 + k Minutes));",
        bound: "k := 210379681;",
        told: "spec 10:60 NumberOutOfRange k",
        ..BASE
    },
    Row {
        parameters: "k: Number",
        unit: "Minute",
        sections: "Obligations o: O(a, b, true, happensBefore(e, 2024-01-01 + k Minutes));",
        bound: "k := 210379680;",
        ..BASE
    },
    Row {
        types: "Q isAn Asset with n: Number;",
        parameters: "p: Q",
        sections: "Obligations o: O(a, b, true, happensBefore(e, 2024-01-01 + 1 Days + p.n Days));",
        bound: "p := {n := -1};",
        told: "spec 10:69 NumberOutOfRange p",
        ..BASE
    },
    Row {
        parameters: "k: Number, m: Number",
        sections: "Obligations o: O(a, b, true, happensBefore(e, 2024-01-01 + m Days + k Days));",
        bound: "k := -1; m := -2;",
        told: "spec 10:60 NumberOutOfRange m",
        ..BASE
    },
    Row {
        types: "Q isAn Asset with n: Number;",
        parameters: "k: Number",
        declarations: "f: Q with n := k * 2;",
        sections: "Powers p: P(a, b, occurs(state(contract) = InEffect, 2024-01-01, 2024-01-01 + f.n Days), terminates(contract));",
        bound: "k := 73049;",
        told: "spec 10:79 NumberOutOfRange f",
        ..BASE
    },
    Row {
        types: "Q isAn Asset with n: Number;",
        parameters: "k: Number",
        declarations: "f: Q with n := k * 2;",
        sections: "Powers p: P(a, b, occurs(state(contract) = InEffect, 2024-01-01, 2024-01-01 + f.n Days), terminates(contract));",
        bound: "k := 73048;",
        ..BASE
    },
];

/// Preconditions that are false.
static PRECONDITIONS: [Row; 22] = [
    Row {
        parameters: "k: Number",
        sections: "Preconditions k > 0;",
        bound: "k := 0;",
        told: "spec 10:15 PreconditionFalse k",
        ..BASE
    },
    Row {
        parameters: "k: Number",
        sections: "Preconditions k > 0;",
        bound: "k := 1;",
        ..BASE
    },
    Row {
        parameters: "k: Number",
        sections: "Preconditions 1 = 1; k > 0; k > 1;",
        bound: "k := 0;",
        told: "spec 10:22 PreconditionFalse k",
        ..BASE
    },
    Row {
        parameters: "k: Number",
        sections: "Preconditions 1 = 1; ((k > 0));",
        bound: "k := 0;",
        told: "spec 10:22 PreconditionFalse (",
        ..BASE
    },
    Row {
        parameters: "k: Number",
        sections: "Preconditions (k > 0) or k < 0;",
        bound: "k := 0;",
        told: "spec 10:15 PreconditionFalse (",
        ..BASE
    },
    Row {
        parameters: "k: Number",
        sections: "Preconditions not (k = 0);",
        bound: "k := 0;",
        told: "spec 10:15 PreconditionFalse not",
        ..BASE
    },
    Row {
        parameters: "k: Number",
        sections: "Preconditions not (k > 0);",
        bound: "k := 0;",
        ..BASE
    },
    Row {
        parameters: "k: Number",
        sections: "Preconditions true and (true and (k > 0 or false));",
        bound: "k := 0;",
        told: "spec 10:15 PreconditionFalse true",
        ..BASE
    },
    Row {
        sections: "Preconditions false;",
        told: "spec 10:15 PreconditionFalse false",
        ..BASE
    },
    Row {
        parameters: "k: Number",
        sections: "Preconditions k = 0;",
        bound: "k := -0;",
        ..BASE
    },
    Row {
        parameters: "k: Number",
        sections: "Preconditions 5 < k;",
        bound: "k := 005;",
        told: "spec 10:15 PreconditionFalse 5",
        ..BASE
    },
    Row {
        parameters: "k: Number",
        sections: "Preconditions k != 2 * 3 - 1;",
        bound: "k := 5;",
        told: "spec 10:15 PreconditionFalse k",
        ..BASE
    },
    Row {
        types: "Q isA Role with n: Text, m: Text;",
        parameters: "p: Q",
        sections: "Preconditions p.m = \"x\";",
        bound: "p := {n := \"x\", m := \"X\"};",
        told: "spec 10:15 PreconditionFalse p",
        ..BASE
    },
    Row {
        types: "Q isA Role with n: Text, m: Text;",
        parameters: "p: Q",
        sections: "Preconditions p.n = \"x\" and p.m != p.n;",
        bound: "p := {n := \"x\", m := \"X\"};",
        ..BASE
    },
    Row {
        parameters: "x: Date",
        sections: "Preconditions x < 2024-03-01;",
        bound: "x := 2024-03-01;",
        told: "spec 10:15 PreconditionFalse x",
        ..BASE
    },
    Row {
        parameters: "x: Date",
        sections: "Preconditions x < 2024-03-01;",
        bound: "x := 2024-02-29;",
        ..BASE
    },
    Row {
        parameters: "x: Date",
        unit: "Minute",
        sections: "Preconditions x = 2024-03-01T00:00;",
        bound: "x := 2024-03-01;",
        ..BASE
    },
    Row {
        parameters: "x: Boolean",
        sections: "Preconditions x = true;",
        bound: "x := false;",
        told: "spec 10:15 PreconditionFalse x",
        ..BASE
    },
    Row {
        types: "G isAn Enumeration(Fine, Poor);",
        parameters: "g: G",
        sections: "Preconditions g = Fine;",
        bound: "g := Poor;",
        told: "spec 10:15 PreconditionFalse g",
        ..BASE
    },
    Row {
        types: "G isAn Enumeration(Fine, Poor);",
        parameters: "g: G",
        sections: "Preconditions g = Poor and g != Fine;",
        bound: "g := Poor;",
        ..BASE
    },
    Row {
        types: "Q isAn Asset with n: Number; F isAn Event with q: Q;",
        parameters: "k: Number",
        declarations: "g: Q with n := k * 2; f: F with q := g;",
        sections: "Preconditions f.q.n > 10;",
        bound: "k := 5;",
        told: "spec 10:15 PreconditionFalse f",
        ..BASE
    },
    Row {
        types: "Q isAn Asset with n: Number; F isAn Event with q: Q;",
        parameters: "k: Number",
        declarations: "g: Q with n := k * 2; f: F with q := g;",
        sections: "Preconditions f.q.n > 10;",
        bound: "k := 6;",
        ..BASE
    },
];

/// Constraints that are false.
static CONSTRAINTS: [Row; 10] = [
    Row {
        parameters: "k: Number",
        sections: "Constraints k <= 10;",
        bound: "k := 11;",
        told: "spec 10:13 ConstraintFalse k",
        ..BASE
    },
    Row {
        parameters: "k: Number",
        sections: "Constraints k <= 10;",
        bound: "k := 10;",
        ..BASE
    },
    Row {
        parameters: "k: Number",
        sections: "Constraints k = k; k > 1; k > 2;",
        bound: "k := 1;",
        told: "spec 10:20 ConstraintFalse k",
        ..BASE
    },
    Row {
        parameters: "k: Number",
        sections: "Constraints k = k; (k > 1 and k > 2);",
        bound: "k := 2;",
        told: "spec 10:20 ConstraintFalse (",
        ..BASE
    },
    Row {
        parameters: "k: Number",
        sections: "Constraints not not (k > 1);",
        bound: "k := 1;",
        told: "spec 10:13 ConstraintFalse not",
        ..BASE
    },
    Row {
        parameters: "k: Number",
        sections: "Constraints - 5 > k;",
        bound: "k := -5;",
        told: "spec 10:13 ConstraintFalse -",
        ..BASE
    },
    Row {
        parameters: "k: Number",
        sections: "Constraints - 5 > k;",
        bound: "k := -6;",
        ..BASE
    },
    Row {
        types: "Q isA Role with n: Text, m: Text;",
        parameters: "p: Q",
        sections: "Constraints \"x\" = p.n;",
        bound: "p := {n := \"y\", m := \"x\"};",
        told: "spec 10:13 ConstraintFalse \"x\"",
        ..BASE
    },
    Row {
        parameters: "x: Date",
        sections: "Constraints 2024-03-01 >= x;",
        bound: "x := 2024-03-02;",
        told: "spec 10:13 ConstraintFalse 2024-03-01",
        ..BASE
    },
    Row {
        parameters: "k: Number",
        sections: "Preconditions k >= 0; Constraints k > 0;",
        bound: "k := 0;",
        told: "spec 10:35 ConstraintFalse k",
        ..BASE
    },
];

/// Bindings with two faults: the earlier check is told, wherever it stands.
static IN_ORDER: [Row; 12] = [
    Row {
        parameters: "k: Number",
        bound: "x := 1; k := 1; k := 2;",
        told: "bind 2:17 DuplicateParam k",
        ..BASE
    },
    Row {
        types: "Q isA Role with n: Text, m: Text;",
        parameters: "p: Q",
        bound: "x := 1; p := {n := \"x\", n := \"y\"};",
        told: "bind 2:25 DuplicateParam n",
        ..BASE
    },
    Row {
        parameters: "k: Number",
        bound: "x := 1;",
        told: "bind 2:1 ExtraParam x",
        ..BASE
    },
    Row {
        types: "Q isA Role with n: Text, m: Text;",
        parameters: "p: Q",
        bound: "p := {y := 1};",
        told: "bind 2:7 ExtraParam y",
        ..BASE
    },
    Row {
        parameters: "k: Number, m: Number",
        bound: "k := \"x\";",
        told: "bind MissingParam m",
        ..BASE
    },
    Row {
        parameters: "k: Number, x: Date",
        start: "2024-02-30",
        bound: "x := 2024-02-30; k := \"x\";",
        told: "bind 2:23 WrongParamType \"x\"",
        ..BASE
    },
    Row {
        parameters: "k: Number, x: Date",
        bound: "k := 1000000000000001; x := 2024-02-30;",
        told: "bind 2:29 BadDate 2024-02-30",
        ..BASE
    },
    Row {
        parameters: "k: Number",
        sections: "Preconditions k < 0;",
        bound: "k := 1000000000000001;",
        told: "bind 2:6 NumberOutOfRange 1000000000000001",
        ..BASE
    },
    Row {
        parameters: "k: Number, m: Number",
        sections: "Preconditions k + 1 > 0;",
        bound: "k := 1000000000000000; m := 1000000000000001;",
        told: "bind 2:29 NumberOutOfRange 1000000000000001",
        ..BASE
    },
    Row {
        parameters: "k: Number",
        sections: "Preconditions 1 = 2; Constraints k + 1 > 0;",
        bound: "k := 1000000000000000;",
        told: "spec 10:34 NumberOutOfRange k",
        ..BASE
    },
    Row {
        parameters: "k: Number",
        sections: "Preconditions k > 0; Obligations o: O(a, b, true, happensBefore(e, 2024-01-01 + k Days));",
        bound: "k := -1;",
        told: "spec 10:81 NumberOutOfRange k",
        ..BASE
    },
    Row {
        parameters: "k: Number",
        sections: "Preconditions k = k; k > 0; Constraints k > 0;",
        bound: "k := 0;",
        told: "spec 10:22 PreconditionFalse k",
        ..BASE
    },
];

#[test]
fn tells_the_first_fault(rt: HostRuntime) -> Result<(), Fail> {
    let alloc = rt.alloc();
    are_told(alloc, &REPEATED)?;
    are_told(alloc, &EXTRA)?;
    are_told(alloc, &MISSING)?;
    are_told(alloc, &MISTYPED)?;
    are_told(alloc, &UNDATED)?;
    are_told(alloc, &GREAT)?;
    are_told(alloc, &TERMS)?;
    are_told(alloc, &COUNTS)?;
    are_told(alloc, &PRECONDITIONS)?;
    are_told(alloc, &CONSTRAINTS)?;
    are_told(alloc, &IN_ORDER)
}

/// The binding of the sale of meat, with this behind its start and its parties.
fn sale_binding(alloc: Global, rest: &str) -> Result<String, AllocError> {
    format!(in alloc;
        "start 2024-03-01;
seller := {{ name := \"Farm\" }};
buyer := {{ name := \"Shop\" }};
{rest}
"
    )
}

/// What the checks of a binding of the sale of meat say.
fn sale_told(alloc: Global, rest: &str) -> Result<Text, Fail> {
    let bound = sale_binding(alloc, rest)?;
    if bound.len() > 2000 {
        return Err(Fail::from("a long binding"));
    }
    told(alloc, m(), bound.as_bytes())
}

/// What stands behind the parties in bindings of the sale of meat, and what is told of them.
static SALES: [(&str, &str); 8] = [
    ("qnt := 500; price := 100; dueDays := 10;", ""),
    (
        "qnt := 0; price := 100; dueDays := 10;",
        "refused spec 18:1 PreconditionFalse qnt\n",
    ),
    (
        "qnt := 500; price := 0; dueDays := 10;",
        "refused spec 18:1 PreconditionFalse qnt\n",
    ),
    (
        "qnt := 500; price := 100; dueDays := 146098;",
        "refused spec 23:107 NumberOutOfRange dueDays\n",
    ),
    ("qnt := 500; price := 100; dueDays := 146097;", ""),
    (
        "qnt := 500; dueDays := 10;",
        "refused bind MissingParam price\n",
    ),
    (
        "qnt := 500; price := 999999999999991; dueDays := 10;",
        "refused spec 24:91 NumberOutOfRange price\n",
    ),
    ("qnt := 500; price := 999999999999990; dueDays := 10;", ""),
];

#[test]
fn tells_of_the_sale_of_meat(rt: HostRuntime) -> Result<(), Fail> {
    let alloc = rt.alloc();
    for (rest, wanted) in &SALES {
        let told = sale_told(alloc, rest)?;
        assert!(rt; told.bytes() == wanted.as_bytes(), "{rest}");
    }
    Ok(())
}
