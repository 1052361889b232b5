use std::test::Fail;
use sy_monitor_tests::told::{Contract, Row, are_told};
use sy_run::Status;

/// A handover: a tenant leaves, and is to repair, clean or paint. The owner's powers act on these, and
/// two of them on a third.
static HANDOVER: Contract = Contract {
    spec: b"\
Domain handover
Side isA Role;
Step isAn Event;
endDomain
Contract Handover() unit Day
Declarations
tenant: Side;
owner: Side;
inspected: Step;
repaired: Step;
cleaned: Step;
painted: Step;
Obligations
oRepair: O(tenant, owner, happensBefore(inspected, 2024-01-05), happensBefore(repaired, 2024-01-10));
oClean: O(tenant, owner, holds(state(oRepair) = Discharge), happensBefore(cleaned, 2024-01-12));
oPaint: false -> O(tenant, owner, true, happensBefore(painted, 2024-01-15));
Powers
pOrder: P(owner, tenant, true, triggers(oPaint));
pWaive: P(owner, tenant, true, discharges(oRepair));
pDrop: P(owner, tenant, true, terminates(oClean));
pHold: P(owner, tenant, true, suspends(pOrder));
pGo: P(owner, tenant, happensBefore(inspected, 2024-01-05), resumes(pOrder));
endContract
",
    bind: b"start 2024-01-01;\n",
};

/// Logs of the handover. Where several names stand above one, they are those of its reports.
static ROWS: [Row; 15] = [
    // Waiting for the inspection.
    // Not inspected in time.
    // The state that was waited for came.
    // Completed with a discharge.
    Row {
        log: "\
report 2024-01-04
report 2024-01-05
report 2024-01-06
at 2024-01-07 happens cleaned
report 2024-01-07
",
        status: Status::Done,
        told: "\
report 2024-01-04
contract InEffect
obligation oRepair Create
obligation oClean Create
obligation oPaint Null
power pOrder InEffect
power pWaive InEffect
power pDrop InEffect
power pHold InEffect
power pGo Create
end
report 2024-01-05
contract InEffect
obligation oRepair Discharge
obligation oClean Create
obligation oPaint Null
power pOrder InEffect
power pWaive InEffect
power pDrop InEffect
power pHold InEffect
power pGo UnsuccessfulTermination
end
report 2024-01-06
contract InEffect
obligation oRepair Discharge
obligation oClean InEffect
obligation oPaint Null
power pOrder InEffect
power pWaive InEffect
power pDrop InEffect
power pHold InEffect
power pGo UnsuccessfulTermination
end
report 2024-01-07
contract SuccessfulTermination
obligation oRepair Discharge
obligation oClean Fulfillment
obligation oPaint Null
power pOrder InEffect
power pWaive InEffect
power pDrop InEffect
power pHold InEffect
power pGo UnsuccessfulTermination
end
",
    },
    // A state that is waited for never expires.
    Row {
        log: "\
at 2024-01-02 happens inspected
at 2024-01-04 happens repaired
report 2024-01-20
",
        status: Status::Done,
        told: "\
report 2024-01-20
contract InEffect
obligation oRepair Fulfillment
obligation oClean Create
obligation oPaint Null
power pOrder InEffect
power pWaive InEffect
power pDrop InEffect
power pHold InEffect
power pGo InEffect
end
",
    },
    // Discharged by a power.
    Row {
        log: "\
at 2024-01-02 happens inspected
at 2024-01-03 exert pWaive
report 2024-01-03
",
        status: Status::Done,
        told: "\
report 2024-01-03
contract InEffect
obligation oRepair Discharge
obligation oClean Create
obligation oPaint Null
power pOrder InEffect
power pWaive SuccessfulTermination
power pDrop InEffect
power pHold InEffect
power pGo InEffect
end
",
    },
    // Discharged before it is in effect.
    Row {
        log: "\
at 2024-01-03 exert pWaive
report 2024-01-04
",
        status: Status::Done,
        told: "\
report 2024-01-04
contract InEffect
obligation oRepair Discharge
obligation oClean InEffect
obligation oPaint Null
power pOrder InEffect
power pWaive SuccessfulTermination
power pDrop InEffect
power pHold InEffect
power pGo Create
end
",
    },
    // Discharged as it is fulfilled.
    Row {
        log: "\
at 2024-01-02 happens inspected
at 2024-01-04 happens repaired
at 2024-01-04 exert pWaive
report 2024-01-04
",
        status: Status::Done,
        told: "\
report 2024-01-04
contract InEffect
obligation oRepair Discharge
obligation oClean Create
obligation oPaint Null
power pOrder InEffect
power pWaive SuccessfulTermination
power pDrop InEffect
power pHold InEffect
power pGo InEffect
end
",
    },
    // Triggered by a power.
    Row {
        log: "\
at 2024-01-03 exert pOrder
report 2024-01-03
",
        status: Status::Done,
        told: "\
report 2024-01-03
contract InEffect
obligation oRepair Create
obligation oClean Create
obligation oPaint InEffect
power pOrder SuccessfulTermination
power pWaive InEffect
power pDrop InEffect
power pHold InEffect
power pGo Create
end
",
    },
    // Done before it is ordered.
    Row {
        log: "\
at 2024-01-02 happens painted
at 2024-01-03 exert pOrder
report 2024-01-03
",
        status: Status::Done,
        told: "\
report 2024-01-03
contract InEffect
obligation oRepair Create
obligation oClean Create
obligation oPaint Fulfillment
power pOrder SuccessfulTermination
power pWaive InEffect
power pDrop InEffect
power pHold InEffect
power pGo Create
end
",
    },
    // Ordered and not done.
    Row {
        log: "\
at 2024-01-03 exert pOrder
report 2024-01-15
",
        status: Status::Done,
        told: "\
report 2024-01-15
contract InEffect
obligation oRepair Discharge
obligation oClean Violation
obligation oPaint Violation
power pOrder SuccessfulTermination
power pWaive InEffect
power pDrop InEffect
power pHold InEffect
power pGo UnsuccessfulTermination
violation 2024-01-12 oClean
violation 2024-01-15 oPaint
end
",
    },
    // Terminated by a power.
    // Not completed where one was terminated.
    Row {
        log: "\
at 2024-01-03 exert pDrop
report 2024-01-03
report 2024-01-06
",
        status: Status::Done,
        told: "\
report 2024-01-03
contract InEffect
obligation oRepair Create
obligation oClean UnsuccessfulTermination
obligation oPaint Null
power pOrder InEffect
power pWaive InEffect
power pDrop SuccessfulTermination
power pHold InEffect
power pGo Create
end
report 2024-01-06
contract InEffect
obligation oRepair Discharge
obligation oClean UnsuccessfulTermination
obligation oPaint Null
power pOrder InEffect
power pWaive InEffect
power pDrop SuccessfulTermination
power pHold InEffect
power pGo UnsuccessfulTermination
end
",
    },
    // Exerted while it is suspended.
    Row {
        log: "\
at 2024-01-03 exert pHold
at 2024-01-04 exert pOrder
report 2024-01-04
",
        status: Status::Done,
        told: "\
report 2024-01-04
contract InEffect
obligation oRepair Create
obligation oClean Create
obligation oPaint Null
power pOrder Suspension
power pWaive InEffect
power pDrop InEffect
power pHold SuccessfulTermination
power pGo Create
void 2024-01-04 pOrder
end
",
    },
    // Suspended as it is exerted.
    Row {
        log: "\
at 2024-01-03 exert pHold
at 2024-01-03 exert pOrder
report 2024-01-03
",
        status: Status::Done,
        told: "\
report 2024-01-03
contract InEffect
obligation oRepair Create
obligation oClean Create
obligation oPaint InEffect
power pOrder SuccessfulTermination
power pWaive InEffect
power pDrop InEffect
power pHold SuccessfulTermination
power pGo Create
end
",
    },
    // Resumed and then exerted.
    Row {
        log: "\
at 2024-01-02 happens inspected
at 2024-01-03 exert pHold
at 2024-01-04 exert pGo
at 2024-01-05 exert pOrder
report 2024-01-05
",
        status: Status::Done,
        told: "\
report 2024-01-05
contract InEffect
obligation oRepair InEffect
obligation oClean Create
obligation oPaint InEffect
power pOrder SuccessfulTermination
power pWaive InEffect
power pDrop InEffect
power pHold SuccessfulTermination
power pGo SuccessfulTermination
end
",
    },
    // Exerted as it is resumed.
    Row {
        log: "\
at 2024-01-02 happens inspected
at 2024-01-03 exert pHold
at 2024-01-04 exert pGo
at 2024-01-04 exert pOrder
report 2024-01-04
",
        status: Status::Done,
        told: "\
report 2024-01-04
contract InEffect
obligation oRepair InEffect
obligation oClean Create
obligation oPaint Null
power pOrder InEffect
power pWaive InEffect
power pDrop InEffect
power pHold SuccessfulTermination
power pGo SuccessfulTermination
void 2024-01-04 pOrder
end
",
    },
    // Suspended and resumed at once.
    Row {
        log: "\
at 2024-01-02 happens inspected
at 2024-01-03 exert pHold
at 2024-01-03 exert pGo
report 2024-01-03
",
        status: Status::Done,
        told: "\
report 2024-01-03
contract InEffect
obligation oRepair InEffect
obligation oClean Create
obligation oPaint Null
power pOrder Suspension
power pWaive InEffect
power pDrop InEffect
power pHold SuccessfulTermination
power pGo SuccessfulTermination
end
",
    },
    // Exerted before it is in effect.
    Row {
        log: "\
at 2024-01-03 exert pHold
at 2024-01-04 exert pGo
report 2024-01-04
",
        status: Status::Done,
        told: "\
report 2024-01-04
contract InEffect
obligation oRepair Create
obligation oClean Create
obligation oPaint Null
power pOrder Suspension
power pWaive InEffect
power pDrop InEffect
power pHold SuccessfulTermination
power pGo Create
void 2024-01-04 pGo
end
",
    },
];

#[test]
fn the_handover_is_reported(rt: HostRuntime) -> Result<(), Fail> {
    are_told(rt.alloc(), &HANDOVER, &ROWS)
}
