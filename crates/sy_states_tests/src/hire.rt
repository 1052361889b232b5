use std::test::Fail;
use sy_monitor_tests::told::{Contract, Row, are_told};
use sy_run::Status;

/// A hire: a machine is paid for and returned, or else made good by one of three remedies. Two
/// obligations survive, and the owner's powers act on the contract.
static HIRE: Contract = Contract {
    spec: b"\
Domain hire
Side isA Role;
Step isAn Event;
endDomain
Contract Hire() unit Day
Declarations
tenant: Side;
owner: Side;
paid: Step;
returned: Step;
feePaid: Step;
reminded: Step;
interestPaid: Step;
damagesPaid: Step;
disclosed: Step;
Obligations
oPay: O(tenant, owner, true, happensBefore(paid, 2024-01-10));
oReturn: O(tenant, owner, true, happensBefore(returned, 2024-01-15));
oFee: not happensBefore(violated(oReturn), 2024-01-12) -> O(tenant, owner, true, happensBefore(feePaid, 2024-01-20));
oInterest: happensAfter(reminded, time(violated(oPay))) -> O(tenant, owner, true, happens(interestPaid));
Surviving Obligations
sDamages: happens(violated(oPay)) -> O(tenant, owner, true, happensBefore(damagesPaid, 2024-01-30));
sSecret: O(tenant, owner, true, not happensBefore(disclosed, 2024-02-19));
Powers
pHold: P(owner, tenant, true, suspends(contract));
pGo: P(owner, tenant, true, resumes(contract));
pEnd: P(owner, tenant, true, terminates(contract));
pWaive: P(owner, tenant, true, discharges(oPay));
endContract
",
    bind: b"start 2024-01-01;\n",
};

/// Logs of the hire. Where several names stand above one, they are those of its reports.
static ROWS: [Row; 19] = [
    // A surviving remedy.
    Row {
        log: "\
at 2024-01-05 happens returned
at 2024-01-11 happens damagesPaid
report 2024-01-11
",
        status: Status::Done,
        told: "\
report 2024-01-11
contract SuccessfulTermination
obligation oPay Violation
obligation oReturn Fulfillment
obligation oFee Null
obligation oInterest Null
surviving sDamages Fulfillment
surviving sSecret InEffect
power pHold InEffect
power pGo InEffect
power pEnd InEffect
power pWaive InEffect
violation 2024-01-10 oPay
end
",
    },
    // A remedy that names the violation inside time.
    Row {
        log: "\
at 2024-01-05 happens returned
at 2024-01-11 happens reminded
at 2024-01-11 happens interestPaid
report 2024-01-11
",
        status: Status::Done,
        told: "\
report 2024-01-11
contract SuccessfulTermination
obligation oPay Violation
obligation oReturn Fulfillment
obligation oFee Null
obligation oInterest Fulfillment
surviving sDamages InEffect
surviving sSecret InEffect
power pHold InEffect
power pGo InEffect
power pEnd InEffect
power pWaive InEffect
violation 2024-01-10 oPay
end
",
    },
    // Reminded too early.
    Row {
        log: "\
at 2024-01-05 happens returned
at 2024-01-10 happens reminded
at 2024-01-11 happens interestPaid
report 2024-01-11
",
        status: Status::Done,
        told: "\
report 2024-01-11
contract InEffect
obligation oPay Violation
obligation oReturn Fulfillment
obligation oFee Null
obligation oInterest Null
surviving sDamages InEffect
surviving sSecret InEffect
power pHold InEffect
power pGo InEffect
power pEnd InEffect
power pWaive InEffect
violation 2024-01-10 oPay
end
",
    },
    // A remedy that names the violation under not.
    Row {
        log: "\
at 2024-01-05 happens paid
at 2024-01-16 happens feePaid
report 2024-01-16
",
        status: Status::Done,
        told: "\
report 2024-01-16
contract SuccessfulTermination
obligation oPay Fulfillment
obligation oReturn Violation
obligation oFee Fulfillment
obligation oInterest Null
surviving sDamages Null
surviving sSecret InEffect
power pHold InEffect
power pGo InEffect
power pEnd InEffect
power pWaive InEffect
violation 2024-01-15 oReturn
end
",
    },
    // A remedy, and no violation yet.
    // Remedied before it is violated.
    Row {
        log: "\
at 2024-01-05 happens paid
at 2024-01-13 happens feePaid
report 2024-01-14
report 2024-01-15
",
        status: Status::Done,
        told: "\
report 2024-01-14
contract InEffect
obligation oPay Fulfillment
obligation oReturn InEffect
obligation oFee Fulfillment
obligation oInterest Null
surviving sDamages Null
surviving sSecret InEffect
power pHold InEffect
power pGo InEffect
power pEnd InEffect
power pWaive InEffect
end
report 2024-01-15
contract SuccessfulTermination
obligation oPay Fulfillment
obligation oReturn Violation
obligation oFee Fulfillment
obligation oInterest Null
surviving sDamages Null
surviving sSecret InEffect
power pHold InEffect
power pGo InEffect
power pEnd InEffect
power pWaive InEffect
violation 2024-01-15 oReturn
end
",
    },
    // Not remedied.
    Row {
        log: "\
at 2024-01-05 happens paid
report 2024-01-16
",
        status: Status::Done,
        told: "\
report 2024-01-16
contract InEffect
obligation oPay Fulfillment
obligation oReturn Violation
obligation oFee InEffect
obligation oInterest Null
surviving sDamages Null
surviving sSecret InEffect
power pHold InEffect
power pGo InEffect
power pEnd InEffect
power pWaive InEffect
violation 2024-01-15 oReturn
end
",
    },
    // Completed with a discharge.
    Row {
        log: "\
at 2024-01-03 exert pWaive
at 2024-01-05 happens returned
report 2024-01-05
",
        status: Status::Done,
        told: "\
report 2024-01-05
contract SuccessfulTermination
obligation oPay Discharge
obligation oReturn Fulfillment
obligation oFee Null
obligation oInterest Null
surviving sDamages Null
surviving sSecret InEffect
power pHold InEffect
power pGo InEffect
power pEnd InEffect
power pWaive SuccessfulTermination
end
",
    },
    // Suspended past the deadlines.
    Row {
        log: "\
at 2024-01-03 exert pHold
report 2024-01-16
",
        status: Status::Done,
        told: "\
report 2024-01-16
contract Suspension
obligation oPay InEffect
obligation oReturn InEffect
obligation oFee Null
obligation oInterest Null
surviving sDamages Null
surviving sSecret InEffect
power pHold SuccessfulTermination
power pGo InEffect
power pEnd InEffect
power pWaive InEffect
end
",
    },
    // Suspended as a deadline passes.
    Row {
        log: "\
at 2024-01-10 exert pHold
report 2024-01-10
",
        status: Status::Done,
        told: "\
report 2024-01-10
contract Suspension
obligation oPay Violation
obligation oReturn InEffect
obligation oFee Null
obligation oInterest Null
surviving sDamages InEffect
surviving sSecret InEffect
power pHold SuccessfulTermination
power pGo InEffect
power pEnd InEffect
power pWaive InEffect
violation 2024-01-10 oPay
end
",
    },
    // Resumed.
    // Completed after it was resumed.
    Row {
        log: "\
at 2024-01-03 exert pHold
at 2024-01-05 happens paid
at 2024-01-05 happens returned
at 2024-01-08 exert pGo
report 2024-01-08
report 2024-01-09
",
        status: Status::Done,
        told: "\
report 2024-01-08
contract InEffect
obligation oPay InEffect
obligation oReturn InEffect
obligation oFee Null
obligation oInterest Null
surviving sDamages Null
surviving sSecret InEffect
power pHold SuccessfulTermination
power pGo SuccessfulTermination
power pEnd InEffect
power pWaive InEffect
end
report 2024-01-09
contract SuccessfulTermination
obligation oPay Fulfillment
obligation oReturn Fulfillment
obligation oFee Null
obligation oInterest Null
surviving sDamages Null
surviving sSecret InEffect
power pHold SuccessfulTermination
power pGo SuccessfulTermination
power pEnd InEffect
power pWaive InEffect
end
",
    },
    // Resumed after a deadline.
    Row {
        log: "\
at 2024-01-03 exert pHold
at 2024-01-12 exert pGo
report 2024-01-13
",
        status: Status::Done,
        told: "\
report 2024-01-13
contract InEffect
obligation oPay Violation
obligation oReturn InEffect
obligation oFee InEffect
obligation oInterest Null
surviving sDamages InEffect
surviving sSecret InEffect
power pHold SuccessfulTermination
power pGo SuccessfulTermination
power pEnd InEffect
power pWaive InEffect
violation 2024-01-13 oPay
end
",
    },
    // Void while the contract is suspended.
    Row {
        log: "\
at 2024-01-03 exert pHold
at 2024-01-05 exert pWaive
report 2024-01-05
",
        status: Status::Done,
        told: "\
report 2024-01-05
contract Suspension
obligation oPay InEffect
obligation oReturn InEffect
obligation oFee Null
obligation oInterest Null
surviving sDamages Null
surviving sSecret InEffect
power pHold SuccessfulTermination
power pGo InEffect
power pEnd InEffect
power pWaive InEffect
void 2024-01-05 pWaive
end
",
    },
    // Resumed though not suspended.
    Row {
        log: "\
at 2024-01-03 exert pGo
at 2024-01-04 exert pHold
at 2024-01-05 exert pGo
report 2024-01-05
",
        status: Status::Done,
        told: "\
report 2024-01-05
contract Suspension
obligation oPay InEffect
obligation oReturn InEffect
obligation oFee Null
obligation oInterest Null
surviving sDamages Null
surviving sSecret InEffect
power pHold SuccessfulTermination
power pGo SuccessfulTermination
power pEnd InEffect
power pWaive InEffect
void 2024-01-05 pGo
end
",
    },
    // Terminated while it is suspended.
    Row {
        log: "\
at 2024-01-03 exert pHold
at 2024-01-05 exert pEnd
report 2024-01-05
",
        status: Status::Done,
        told: "\
report 2024-01-05
contract UnsuccessfulTermination
obligation oPay UnsuccessfulTermination
obligation oReturn UnsuccessfulTermination
obligation oFee Null
obligation oInterest Null
surviving sDamages Null
surviving sSecret InEffect
power pHold SuccessfulTermination
power pGo UnsuccessfulTermination
power pEnd SuccessfulTermination
power pWaive UnsuccessfulTermination
end
",
    },
    // Suspended and terminated at once.
    Row {
        log: "\
at 2024-01-03 exert pHold
at 2024-01-03 exert pEnd
report 2024-01-03
",
        status: Status::Done,
        told: "\
report 2024-01-03
contract UnsuccessfulTermination
obligation oPay UnsuccessfulTermination
obligation oReturn UnsuccessfulTermination
obligation oFee Null
obligation oInterest Null
surviving sDamages Null
surviving sSecret InEffect
power pHold SuccessfulTermination
power pGo UnsuccessfulTermination
power pEnd SuccessfulTermination
power pWaive UnsuccessfulTermination
end
",
    },
    // Surviving while the contract is suspended.
    Row {
        log: "\
at 2024-01-03 exert pHold
at 2024-01-06 happens disclosed
report 2024-01-06
",
        status: Status::Done,
        told: "\
report 2024-01-06
contract Suspension
obligation oPay InEffect
obligation oReturn InEffect
obligation oFee Null
obligation oInterest Null
surviving sDamages Null
surviving sSecret Violation
power pHold SuccessfulTermination
power pGo InEffect
power pEnd InEffect
power pWaive InEffect
violation 2024-01-06 sSecret
end
",
    },
    // Surviving a contract that was terminated.
    Row {
        log: "\
at 2024-01-05 happens returned
at 2024-01-11 exert pEnd
at 2024-01-12 happens reminded
at 2024-01-13 happens damagesPaid
at 2024-01-14 happens disclosed
report 2024-01-14
",
        status: Status::Done,
        told: "\
report 2024-01-14
contract UnsuccessfulTermination
obligation oPay Violation
obligation oReturn Fulfillment
obligation oFee Null
obligation oInterest Null
surviving sDamages Fulfillment
surviving sSecret Violation
power pHold UnsuccessfulTermination
power pGo UnsuccessfulTermination
power pEnd SuccessfulTermination
power pWaive UnsuccessfulTermination
violation 2024-01-10 oPay
violation 2024-01-14 sSecret
end
",
    },
    // Surviving a contract that was completed.
    Row {
        log: "\
at 2024-01-05 happens paid
at 2024-01-05 happens returned
at 2024-01-08 happens disclosed
at 2024-01-09 exert pHold
report 2024-01-13
",
        status: Status::Done,
        told: "\
report 2024-01-13
contract SuccessfulTermination
obligation oPay Fulfillment
obligation oReturn Fulfillment
obligation oFee Null
obligation oInterest Null
surviving sDamages Null
surviving sSecret Violation
power pHold InEffect
power pGo InEffect
power pEnd InEffect
power pWaive InEffect
violation 2024-01-08 sSecret
void 2024-01-09 pHold
end
",
    },
    // Suspended as it is complete.
    // Resumed and not yet completed.
    // Completed the day after.
    Row {
        log: "\
at 2024-01-03 happens paid
at 2024-01-05 happens returned
at 2024-01-05 exert pHold
report 2024-01-05
at 2024-01-06 exert pGo
report 2024-01-06
report 2024-01-07
",
        status: Status::Done,
        told: "\
report 2024-01-05
contract Suspension
obligation oPay Fulfillment
obligation oReturn Fulfillment
obligation oFee Null
obligation oInterest Null
surviving sDamages Null
surviving sSecret InEffect
power pHold SuccessfulTermination
power pGo InEffect
power pEnd InEffect
power pWaive InEffect
end
report 2024-01-06
contract InEffect
obligation oPay Fulfillment
obligation oReturn Fulfillment
obligation oFee Null
obligation oInterest Null
surviving sDamages Null
surviving sSecret InEffect
power pHold SuccessfulTermination
power pGo SuccessfulTermination
power pEnd InEffect
power pWaive InEffect
end
report 2024-01-07
contract SuccessfulTermination
obligation oPay Fulfillment
obligation oReturn Fulfillment
obligation oFee Null
obligation oInterest Null
surviving sDamages Null
surviving sSecret InEffect
power pHold SuccessfulTermination
power pGo SuccessfulTermination
power pEnd InEffect
power pWaive InEffect
end
",
    },
];

#[test]
fn the_hire_is_reported(rt: HostRuntime) -> Result<(), Fail> {
    are_told(rt.alloc(), &HIRE, &ROWS)
}
