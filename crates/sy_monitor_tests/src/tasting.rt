use crate::told::{Contract, Row, are_told, is_told};
use std::test::Fail;
use sy_run::Status;

/// A tasting of which the log tells a value of each kind, in hours. Each obligation asks for a value
/// of one of them.
static TASTING: Contract = Contract {
    spec: b"\
Domain tasting
Party isA Role;
Grade isAn Enumeration(Prime, Choice);
Tasted isAn Event with Env change: Number, Env note: Text, Env fit: Boolean, Env due: Date, Env grade: Grade;
endDomain
Contract Tasting() unit Hour
Declarations
cook: Party;
guest: Party;
tasted: Tasted;
Postconditions
happensBefore(tasted, 2024-03-02);
happens(tasted);
Obligations
oChange: O(guest, cook, true, happens(tasted[change = -12]));
oNote: O(guest, cook, true, happens(tasted[note = \"a \\\"b\\\" \\\\\"]));
oFit: O(guest, cook, true, happens(tasted[fit = true]));
oDue: O(guest, cook, true, happens(tasted[due < 2024-03-10]));
oGrade: O(guest, cook, true, happens(tasted[grade = Choice]));
endContract
",
    bind: b"start 2024-03-01T20;\n",
};

/// What is reported where all of them were told.
const ALL: &str = "\
report 2024-03-01T21
contract SuccessfulTermination
obligation oChange Fulfillment
obligation oNote Fulfillment
obligation oFit Fulfillment
obligation oDue Fulfillment
obligation oGrade Fulfillment
post 1 True
post 2 True
end
";

/// Logs of the tasting.
static ROWS: [Row; 6] = [
    Row {
        log: "\
at 2024-03-01T21 happens tasted[change := -12, note := \"a \\\"b\\\" \\\\\", fit := true, due := 2024-03-09T23, grade := Choice]
report 2024-03-01T21
",
        status: Status::Done,
        told: ALL,
    },
    // In another order, with other blanks, and with zeros in front of the number.
    Row {
        log: "\
at 2024-03-01T21 happens tasted [grade:=Choice,due:=1900-01-01,fit:=true,note:=\"a \\\"b\\\" \\\\\",change:=- 0012]
report 2024-03-01T21
",
        status: Status::Done,
        told: ALL,
    },
    // Told twice, and in another order: it counts once.
    Row {
        log: "\
at 2024-03-01T21 happens tasted[change := -12, note := \"a \\\"b\\\" \\\\\", fit := true, due := 2024-03-09T23, grade := Choice]
at 2024-03-01T21 happens tasted[grade := Choice, fit := true, note := \"a \\\"b\\\" \\\\\", due := 2024-03-09T23, change := -012]
report 2024-03-01T21
",
        status: Status::Done,
        told: ALL,
    },
    // Another value of each kind.
    Row {
        log: "\
at 2024-03-01T21 happens tasted[change := 12, note := \"a b \\\\\", fit := false, due := 2024-03-10, grade := Prime]
report 2024-03-01T21
",
        status: Status::Done,
        told: "\
report 2024-03-01T21
contract InEffect
obligation oChange InEffect
obligation oNote InEffect
obligation oFit InEffect
obligation oDue InEffect
obligation oGrade InEffect
post 1 True
post 2 True
end
",
    },
    // Two tastings in one hour, each with some of the values; and the greatest number and date.
    Row {
        log: "\
at 2024-03-01T21 happens tasted[change := -12, note := \"\", fit := true, due := 2999-12-31T23, grade := Prime]
at 2024-03-01T21 happens tasted[change := 1000000000000000, note := \"a \\\"b\\\" \\\\\", fit := false, due := 2024-03-10, grade := Choice]
report 2024-03-01T21
",
        status: Status::Done,
        told: "\
report 2024-03-01T21
contract InEffect
obligation oChange Fulfillment
obligation oNote Fulfillment
obligation oFit Fulfillment
obligation oDue InEffect
obligation oGrade Fulfillment
post 1 True
post 2 True
end
",
    },
    // A coarser date means its first hour, and there the tasting is too late for the first postcondition.
    Row {
        log: "\
at 2024-03-02 happens tasted[change := -0, note := \"\", fit := false, due := 2024-03-02, grade := Prime]
report 2024-03-01T23
report 2024-03-02
",
        status: Status::Done,
        told: "\
report 2024-03-01T23
contract InEffect
obligation oChange InEffect
obligation oNote InEffect
obligation oFit InEffect
obligation oDue InEffect
obligation oGrade InEffect
post 1 Open
post 2 Open
end
report 2024-03-02T00
contract InEffect
obligation oChange InEffect
obligation oNote InEffect
obligation oFit InEffect
obligation oDue Fulfillment
obligation oGrade InEffect
post 1 False
post 2 True
end
",
    },
];

/// Values of which one isn't of its kind or range, or is missing.
static WRONG: [&str; 9] = [
    "change := true, note := \"\", fit := true, due := 2024-03-09, grade := Choice",
    "change := -1000000000000001, note := \"\", fit := true, due := 2024-03-09, grade := Choice",
    "change := 1, note := Prime, fit := true, due := 2024-03-09, grade := Choice",
    "change := 1, note := \"\", fit := 1, due := 2024-03-09, grade := Choice",
    "change := 1, note := \"\", fit := true, due := 2024-02-30, grade := Choice",
    "change := 1, note := \"\", fit := true, due := 2024-03-09T10:30, grade := Choice",
    "change := 1, note := \"\", fit := true, due := 2024-03-09, grade := Poor",
    "change := 1, note := \"\", fit := true, due := 2024-03-09, grade := \"Choice\"",
    "change := 1, note := \"\", fit := true, grade := Choice",
];

#[test]
fn values_of_each_kind_are_told(rt: HostRuntime) -> Result<(), Fail> {
    let alloc = rt.alloc();
    are_told(alloc, &TASTING, &ROWS)?;
    for values in &WRONG {
        let log = format!(in alloc; "at 2024-03-01T21 happens tasted[{values}]\n")?;
        is_told(
            alloc,
            &TASTING,
            &log,
            Status::Refused,
            "refused log 1 WrongValues\n",
        )?;
    }
    Ok(())
}
