use std::test::Fail;
use sy_monitor_tests::told::{Contract, Row, are_told};
use sy_run::Status;

/// A handover whose powers act on positions, and on the contract as a whole.
static HANDOVER: Contract = Contract {
    spec: b"\
Domain handover
Side isA Role;
Step isAn Event;
endDomain
Contract Handover() unit Day
Declarations
owner: Side;
keeper: Side;
inspected: Step;
repaired: Step;
cleaned: Step;
painted: Step;
Obligations
oRepair: O(keeper, owner, happensBefore(inspected, 2024-01-05), happensBefore(repaired, 2024-01-10));
oClean: O(keeper, owner, holds(state(oRepair) = Discharge), happensBefore(cleaned, 2024-01-12));
oPaint: false -> O(keeper, owner, true, happensBefore(painted, 2024-01-15));
Powers
pOrder: P(owner, keeper, true, triggers(oPaint));
pWaive: P(owner, keeper, true, discharges(oRepair));
pDrop: P(owner, keeper, true, terminates(oClean));
pHold: P(keeper, owner, true, suspends(contract));
pGo: P(keeper, owner, happens(suspended(contract)), resumes(contract));
endContract
",
    bind: b"start 2024-01-01;\n",
};

/// Logs of the handover.
static ROWS: [Row; 8] = [
    // Two positions wait. The repair lapses where there was no inspection in time, and with it the
    // cleaning is owed, whose fulfillment ends the contract.
    Row {
        log: "\
at 2024-01-07 happens cleaned
report 2024-01-04
report 2024-01-05
report 2024-01-06
report 2024-01-07
",
        status: Status::Done,
        told: "\
report 2024-01-04
contract InEffect
obligation oRepair Create
obligation oClean Create
obligation oPaint Null
power pOrder InEffect
power pWaive InEffect
power pDrop InEffect
power pHold InEffect
power pGo Create
end
report 2024-01-05
contract InEffect
obligation oRepair Discharge
obligation oClean Create
obligation oPaint Null
power pOrder InEffect
power pWaive InEffect
power pDrop InEffect
power pHold InEffect
power pGo Create
end
report 2024-01-06
contract InEffect
obligation oRepair Discharge
obligation oClean InEffect
obligation oPaint Null
power pOrder InEffect
power pWaive InEffect
power pDrop InEffect
power pHold InEffect
power pGo Create
end
report 2024-01-07
contract SuccessfulTermination
obligation oRepair Discharge
obligation oClean Fulfillment
obligation oPaint Null
power pOrder InEffect
power pWaive InEffect
power pDrop InEffect
power pHold InEffect
power pGo Create
end
",
    },
    // Discharged as it is fulfilled.
    Row {
        log: "\
at 2024-01-02 happens inspected
at 2024-01-04 happens repaired
at 2024-01-04 exert pWaive
report 2024-01-04
",
        status: Status::Done,
        told: "\
report 2024-01-04
contract InEffect
obligation oRepair Discharge
obligation oClean Create
obligation oPaint Null
power pOrder InEffect
power pWaive SuccessfulTermination
power pDrop InEffect
power pHold InEffect
power pGo Create
end
",
    },
    // Painted before it is ordered.
    Row {
        log: "\
at 2024-01-02 happens painted
at 2024-01-03 exert pOrder
report 2024-01-03
",
        status: Status::Done,
        told: "\
report 2024-01-03
contract InEffect
obligation oRepair Create
obligation oClean Create
obligation oPaint Fulfillment
power pOrder SuccessfulTermination
power pWaive InEffect
power pDrop InEffect
power pHold InEffect
power pGo Create
end
",
    },
    // Ordered and not done.
    Row {
        log: "\
at 2024-01-03 exert pOrder
report 2024-01-15
",
        status: Status::Done,
        told: "\
report 2024-01-15
contract InEffect
obligation oRepair Discharge
obligation oClean Violation
obligation oPaint Violation
power pOrder SuccessfulTermination
power pWaive InEffect
power pDrop InEffect
power pHold InEffect
power pGo Create
violation 2024-01-12 oClean
violation 2024-01-15 oPaint
end
",
    },
    // What waits is terminated, and so the contract is never completed.
    Row {
        log: "\
at 2024-01-03 exert pDrop
report 2024-01-03
report 2024-01-20
",
        status: Status::Done,
        told: "\
report 2024-01-03
contract InEffect
obligation oRepair Create
obligation oClean UnsuccessfulTermination
obligation oPaint Null
power pOrder InEffect
power pWaive InEffect
power pDrop SuccessfulTermination
power pHold InEffect
power pGo Create
end
report 2024-01-20
contract InEffect
obligation oRepair Discharge
obligation oClean UnsuccessfulTermination
obligation oPaint Null
power pOrder InEffect
power pWaive InEffect
power pDrop SuccessfulTermination
power pHold InEffect
power pGo Create
end
",
    },
    // While the contract is suspended nothing lapses, and of the powers only those over the contract
    // can be exerted. What was due meanwhile shows on the day behind the one on which it goes on.
    Row {
        log: "\
at 2024-01-03 exert pHold
at 2024-01-06 exert pOrder
report 2024-01-06
at 2024-01-08 exert pGo
report 2024-01-08
report 2024-01-09
",
        status: Status::Done,
        told: "\
report 2024-01-06
contract Suspension
obligation oRepair Create
obligation oClean Create
obligation oPaint Null
power pOrder InEffect
power pWaive InEffect
power pDrop InEffect
power pHold SuccessfulTermination
power pGo InEffect
void 2024-01-06 pOrder
end
report 2024-01-08
contract InEffect
obligation oRepair Create
obligation oClean Create
obligation oPaint Null
power pOrder InEffect
power pWaive InEffect
power pDrop InEffect
power pHold SuccessfulTermination
power pGo SuccessfulTermination
void 2024-01-06 pOrder
end
report 2024-01-09
contract InEffect
obligation oRepair Discharge
obligation oClean Create
obligation oPaint Null
power pOrder InEffect
power pWaive InEffect
power pDrop InEffect
power pHold SuccessfulTermination
power pGo SuccessfulTermination
void 2024-01-06 pOrder
end
",
    },
    // A late waiver takes the place of the repair, and what is told of a day before start is refused.
    Row {
        log: "\
at 2024-01-02 happens inspected
at 2024-01-09 happens repaired
report 2024-01-09
at 2024-01-03 exert pWaive
report 2024-01-09
at 2023-12-31 exert pDrop
",
        status: Status::Refused,
        told: "\
report 2024-01-09
contract InEffect
obligation oRepair Fulfillment
obligation oClean Create
obligation oPaint Null
power pOrder InEffect
power pWaive InEffect
power pDrop InEffect
power pHold InEffect
power pGo Create
end
report 2024-01-09
contract InEffect
obligation oRepair Discharge
obligation oClean InEffect
obligation oPaint Null
power pOrder InEffect
power pWaive SuccessfulTermination
power pDrop InEffect
power pHold InEffect
power pGo Create
end
refused log 6 TooEarly
",
    },
    // A power over an obligation that has come to its end is exerted all the same, and only once.
    Row {
        log: "\
at 2024-01-06 exert pWaive
at 2024-01-08 exert pWaive
report 2024-01-08
",
        status: Status::Done,
        told: "\
report 2024-01-08
contract InEffect
obligation oRepair Discharge
obligation oClean InEffect
obligation oPaint Null
power pOrder InEffect
power pWaive SuccessfulTermination
power pDrop InEffect
power pHold InEffect
power pGo Create
void 2024-01-08 pWaive
end
",
    },
];

#[test]
fn the_held_handover_is_reported(rt: HostRuntime) -> Result<(), Fail> {
    are_told(rt.alloc(), &HANDOVER, &ROWS)
}
