use crate::told::{Contract, Row, are_told, is_told};
use std::test::Fail;
use sy_run::Status;
use sy_samples::{l, l_bind, s, s_bind, s2};

const EARLY: &str = "report 2024-02-29\ncontract Form\nobligation oPay Null\nend\n";

const KEPT: &str =
    "report 2024-03-10\ncontract SuccessfulTermination\nobligation oPay Fulfillment\nend\n";

const BROKEN: &str =
    "report 2024-03-11\ncontract InEffect\nobligation oPay Violation\nviolation 2024-03-11 oPay\nend\n";

/// Logs of the first sale.
static FIRST: [Row; 12] = [
    Row {
        log: "",
        status: Status::Done,
        told: "",
    },
    // What is told says nothing by itself.
    Row {
        log: "\n// The first sale.\n \t\r\nat 2024-03-10 happens paid\n  // \"\n\n// $",
        status: Status::Done,
        told: "",
    },
    Row {
        log: "at 2024-03-10 happens paid\nreport 2024-03-10\n",
        status: Status::Done,
        told: KEPT,
    },
    Row {
        log: "report 2024-03-11",
        status: Status::Done,
        told: BROKEN,
    },
    Row {
        log: "report 2024-02-29\n",
        status: Status::Done,
        told: EARLY,
    },
    // Paid on the due date is too late, and what comes later changes nothing.
    Row {
        log: "at 2024-03-11 happens paid\nreport 2024-03-11\n",
        status: Status::Done,
        told: BROKEN,
    },
    Row {
        log: "at 2024-03-12 happens paid\nreport 2024-03-11\n",
        status: Status::Done,
        told: BROKEN,
    },
    // Neither the order of entries counts, nor how often one stands there.
    Row {
        log: "\nat 2024-03-20 happens paid\nat 2024-03-10 happens paid\nat 2024-03-10 happens paid\nreport 2024-03-10",
        status: Status::Done,
        told: KEPT,
    },
    // Nor do blanks and comments.
    Row {
        log: "\tat  2024-03-10happens paid// at last\r\nreport\t2024-03-10 // so far",
        status: Status::Done,
        told: KEPT,
    },
    // What was reported stays, and nothing comes behind a refusal.
    Row {
        log: "report 2024-02-29\nreport 2024-03-0\nreport 2024-03-11\n",
        status: Status::Refused,
        told: "report 2024-02-29\ncontract Form\nobligation oPay Null\nend\nrefused log 2 BadToken\n",
    },
    Row {
        log: "report 2024-03-0",
        status: Status::Refused,
        told: "refused log 1 BadToken\n",
    },
    // The first sale has no power.
    Row {
        log: "// no power\n\nat 2024-03-10 exert pHold",
        status: Status::Refused,
        told: "refused log 3 UnknownName\n",
    },
];

/// Logs of the sale whose contract the creditor may suspend.
static SUSPENDED: [Row; 3] = [
    Row {
        log: "at 2024-03-12 exert pHold\nreport 2024-03-11\nreport 2024-03-12\n",
        status: Status::Done,
        told: "\
report 2024-03-11
contract InEffect
obligation oPay Violation
power pHold InEffect
violation 2024-03-11 oPay
end
report 2024-03-12
contract Suspension
obligation oPay Violation
power pHold SuccessfulTermination
violation 2024-03-11 oPay
end
",
    },
    // Not yet in effect at its start, the power does nothing on this day.
    Row {
        log: "at 2024-03-11 exert pHold\nreport 2024-03-12\n",
        status: Status::Done,
        told: "\
report 2024-03-12
contract InEffect
obligation oPay Violation
power pHold InEffect
violation 2024-03-11 oPay
void 2024-03-11 pHold
end
",
    },
    // A late payment changes what was suspended: there was never a power.
    Row {
        log: "\
at 2024-03-12 exert pHold
report 2024-03-12
at 2024-03-10 happens paid
report 2024-03-12
",
        status: Status::Done,
        told: "\
report 2024-03-12
contract Suspension
obligation oPay Violation
power pHold SuccessfulTermination
violation 2024-03-11 oPay
end
report 2024-03-12
contract SuccessfulTermination
obligation oPay Fulfillment
power pHold Null
void 2024-03-12 pHold
end
",
    },
];

/// Logs of the sale that counts in minutes, from 2024-01-01 on.
static IN_MINUTES: [Row; 3] = [
    // A coarser date means its first minute.
    Row {
        log: "\
report 2023-12-31T23:59
report 2024-01-01
report 2024-01-01T01
",
        status: Status::Done,
        told: "\
report 2023-12-31T23:59
contract Form
obligation oFar Null
end
report 2024-01-01T00:00
contract InEffect
obligation oFar InEffect
end
report 2024-01-01T01:00
contract InEffect
obligation oFar InEffect
end
",
    },
    Row {
        log: "\
at 2024-01-01T00:30 happens paid
report 2024-01-01T00:29
report 2024-01-01T00:30
at 2023-12-31T23:59 happens paid
",
        status: Status::Refused,
        told: "\
report 2024-01-01T00:29
contract InEffect
obligation oFar InEffect
end
report 2024-01-01T00:30
contract SuccessfulTermination
obligation oFar Fulfillment
end
refused log 4 TooEarly
",
    },
    Row {
        log: "at 2024-01-01T00:60 happens paid\n",
        status: Status::Refused,
        told: "refused log 1 BadDate\n",
    },
];

/// A contract of nothing, which goes on.
static NOTHING: [Row; 2] = [
    Row {
        log: "report 2024-02-29\nreport 2024-03-02\n",
        status: Status::Done,
        told: "report 2024-02-29\ncontract Form\nend\nreport 2024-03-02\ncontract InEffect\nend\n",
    },
    Row {
        log: "at 2024-03-01 happens paid",
        status: Status::Refused,
        told: "refused log 1 UnknownName\n",
    },
];

#[test]
fn small_contracts_are_reported(rt: HostRuntime) -> Result<(), Fail> {
    let alloc = rt.alloc();
    let first = Contract {
        spec: s(),
        bind: s_bind(),
    };
    let suspended = Contract {
        spec: s2(),
        bind: s_bind(),
    };
    let in_minutes = Contract {
        spec: l(),
        bind: l_bind(),
    };
    let nothing = Contract {
        spec: b"Domain d endDomain Contract C() unit Day endContract",
        bind: s_bind(),
    };
    are_told(alloc, &first, &FIRST)?;
    are_told(alloc, &suspended, &SUSPENDED)?;
    are_told(alloc, &in_minutes, &IN_MINUTES)?;
    are_told(alloc, &nothing, &NOTHING)
}

#[test]
fn a_log_of_many_lines_is_reported(rt: HostRuntime) -> Result<(), Fail> {
    let alloc = rt.alloc();
    let first = Contract {
        spec: s(),
        bind: s_bind(),
    };
    let mut log = String::new(alloc);
    for _line in 0..5_000 {
        log.push_str("at 2024-03-10 happens paid\n")?;
    }
    log.push_str("report 2024-03-10\n")?;
    is_told(alloc, &first, &log, Status::Done, KEPT)
}
