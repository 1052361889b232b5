use crate::told::{Contract, Row, are_told};
use std::test::Fail;
use sy_run::Status;
use sy_samples::{m, m_bind};

/// Logs without a late entry, and without an entry that does nothing.
static IN_ORDER: [Row; 8] = [
    // Kept.
    Row {
        log: "\
at 2024-03-05 happens delivered[address := \"Dock 1\"]
at 2024-03-14 happens paid[amount := 100]
report 2024-03-14
",
        status: Status::Done,
        told: "\
report 2024-03-14
contract SuccessfulTermination
obligation oDeliver Fulfillment
obligation oPay Fulfillment
obligation oLate Null
surviving oSecret InEffect
power pHold InEffect
power pGo Null
power pEnd InEffect
post 1 True
end
",
    },
    // Nothing happened.
    Row {
        log: "report 2024-03-01\n",
        status: Status::Done,
        told: "\
report 2024-03-01
contract InEffect
obligation oDeliver InEffect
obligation oPay Null
obligation oLate Null
surviving oSecret InEffect
power pHold Null
power pGo Null
power pEnd InEffect
post 1 Open
end
",
    },
    // Before start, whatever was told.
    Row {
        log: "\
at 2024-03-01 happens delivered[address := \"Dock 1\"]
at 2024-03-01 exert pHold
report 2024-02-29
",
        status: Status::Done,
        told: "\
report 2024-02-29
contract Form
obligation oDeliver Null
obligation oPay Null
obligation oLate Null
surviving oSecret Null
power pHold Null
power pGo Null
power pEnd Null
post 1 Open
end
",
    },
    // Paid on the due date.
    Row {
        log: "\
at 2024-03-05 happens delivered[address := \"Dock 1\"]
at 2024-03-15 happens paid[amount := 100]
report 2024-03-15
",
        status: Status::Done,
        told: "\
report 2024-03-15
contract InEffect
obligation oDeliver Fulfillment
obligation oPay Violation
obligation oLate InEffect
surviving oSecret InEffect
power pHold InEffect
power pGo Null
power pEnd InEffect
violation 2024-03-15 oPay
post 1 True
end
",
    },
    // Not paid.
    Row {
        log: "\
at 2024-03-05 happens delivered[address := \"Dock 1\"]
report 2024-03-14
report 2024-03-15
",
        status: Status::Done,
        told: "\
report 2024-03-14
contract InEffect
obligation oDeliver Fulfillment
obligation oPay InEffect
obligation oLate Null
surviving oSecret InEffect
power pHold InEffect
power pGo Null
power pEnd InEffect
post 1 True
end
report 2024-03-15
contract InEffect
obligation oDeliver Fulfillment
obligation oPay Violation
obligation oLate InEffect
surviving oSecret InEffect
power pHold InEffect
power pGo Null
power pEnd InEffect
violation 2024-03-15 oPay
post 1 True
end
",
    },
    // Mended.
    Row {
        log: "\
at 2024-03-05 happens delivered[address := \"Dock 1\"]
at 2024-03-20 happens paidLate[amount := 110]
report 2024-03-20
",
        status: Status::Done,
        told: "\
report 2024-03-20
contract SuccessfulTermination
obligation oDeliver Fulfillment
obligation oPay Violation
obligation oLate Fulfillment
surviving oSecret InEffect
power pHold InEffect
power pGo Null
power pEnd InEffect
violation 2024-03-15 oPay
post 1 True
end
",
    },
    // Suspended as the deadline passes.
    Row {
        log: "\
at 2024-03-05 happens delivered[address := \"Dock 1\"]
at 2024-03-15 exert pHold
report 2024-03-15
at 2024-03-18 exert pGo
report 2024-03-18
",
        status: Status::Done,
        told: "\
report 2024-03-15
contract InEffect
obligation oDeliver Fulfillment
obligation oPay Suspension
obligation oLate Null
surviving oSecret InEffect
power pHold SuccessfulTermination
power pGo InEffect
power pEnd InEffect
post 1 True
end
report 2024-03-18
contract InEffect
obligation oDeliver Fulfillment
obligation oPay Violation
obligation oLate InEffect
surviving oSecret InEffect
power pHold SuccessfulTermination
power pGo SuccessfulTermination
power pEnd InEffect
violation 2024-03-18 oPay
post 1 True
end
",
    },
    // Terminated as it is fulfilled.
    Row {
        log: "\
at 2024-03-05 happens delivered[address := \"Dock 1\"]
at 2024-03-10 happens paid[amount := 100]
at 2024-03-10 exert pEnd
report 2024-03-10
",
        status: Status::Done,
        told: "\
report 2024-03-10
contract UnsuccessfulTermination
obligation oDeliver Fulfillment
obligation oPay UnsuccessfulTermination
obligation oLate Null
surviving oSecret InEffect
power pHold UnsuccessfulTermination
power pGo Null
power pEnd SuccessfulTermination
post 1 True
end
",
    },
];

/// Logs with late, repeated and void entries, with entries that don't match, and with a refusal.
static OUT_OF_ORDER: [Row; 6] = [
    // Void, and repeated.
    Row {
        log: "\
at 2024-03-03 exert pHold
at 2024-03-03 exert pHold
report 2024-03-03
",
        status: Status::Done,
        told: "\
report 2024-03-03
contract InEffect
obligation oDeliver InEffect
obligation oPay Null
obligation oLate Null
surviving oSecret InEffect
power pHold Null
power pGo Null
power pEnd InEffect
void 2024-03-03 pHold
post 1 Open
end
",
    },
    // A late entry.
    Row {
        log: "\
at 2024-03-09 happens delivered[address := \"Dock 1\"]
at 2024-03-07 exert pHold
at 2024-03-15 exert pGo
report 2024-03-16
at 2024-03-05 happens delivered[address := \"Dock 1\"]
report 2024-03-16
",
        status: Status::Done,
        told: "\
report 2024-03-16
contract InEffect
obligation oDeliver Fulfillment
obligation oPay InEffect
obligation oLate Null
surviving oSecret InEffect
power pHold InEffect
power pGo Null
power pEnd InEffect
void 2024-03-07 pHold
void 2024-03-15 pGo
post 1 True
end
report 2024-03-16
contract InEffect
obligation oDeliver Fulfillment
obligation oPay Violation
obligation oLate InEffect
surviving oSecret InEffect
power pHold SuccessfulTermination
power pGo SuccessfulTermination
power pEnd InEffect
violation 2024-03-15 oPay
post 1 True
end
",
    },
    // Kept, and told in the other order.
    Row {
        log: "\
at 2024-03-14 happens paid[amount := 100]
at 2024-03-05 happens delivered[address := \"Dock 1\"]
report 2024-03-14
",
        status: Status::Done,
        told: "\
report 2024-03-14
contract SuccessfulTermination
obligation oDeliver Fulfillment
obligation oPay Fulfillment
obligation oLate Null
surviving oSecret InEffect
power pHold InEffect
power pGo Null
power pEnd InEffect
post 1 True
end
",
    },
    // Too little was paid in time, and too little late. The secret is told while it binds, and an
    // earlier date is reported after a later one.
    Row {
        log: "\
at 2024-03-05 happens delivered[address := \"\"]
at 2024-03-14 happens paid[amount := 99]
at 2024-03-16 happens paidLate[amount := 109]
at 2024-04-13 happens disclosed
report 2024-04-14
report 2024-03-04
",
        status: Status::Done,
        told: "\
report 2024-04-14
contract InEffect
obligation oDeliver Fulfillment
obligation oPay Violation
obligation oLate Violation
surviving oSecret Violation
power pHold InEffect
power pGo Null
power pEnd InEffect
violation 2024-03-15 oPay
violation 2024-04-13 oSecret
violation 2024-04-14 oLate
post 1 True
end
report 2024-03-04
contract InEffect
obligation oDeliver InEffect
obligation oPay Null
obligation oLate Null
surviving oSecret InEffect
power pHold Null
power pGo Null
power pEnd InEffect
post 1 Open
end
",
    },
    // Before start.
    Row {
        log: "at 2024-02-29 exert pEnd\n",
        status: Status::Refused,
        told: "refused log 1 TooEarly\n",
    },
    // Two violations and two void entries of one date stand in the order of the positions.
    Row {
        log: "\
at 2024-03-11 exert pGo
at 2024-03-11 exert pHold
at 2024-03-11 happens disclosed
report 2024-03-11
at 2024-03-11 exert pNone
report 2024-03-11
",
        status: Status::Refused,
        told: "\
report 2024-03-11
contract InEffect
obligation oDeliver Violation
obligation oPay Null
obligation oLate Null
surviving oSecret Violation
power pHold Null
power pGo Null
power pEnd InEffect
violation 2024-03-11 oDeliver
violation 2024-03-11 oSecret
void 2024-03-11 pHold
void 2024-03-11 pGo
post 1 Open
end
refused log 5 UnknownName
",
    },
];

#[test]
fn the_sale_of_meat_is_reported(rt: HostRuntime) -> Result<(), Fail> {
    let alloc = rt.alloc();
    let sale = Contract {
        spec: m(),
        bind: m_bind(),
    };
    are_told(alloc, &sale, &IN_ORDER)?;
    are_told(alloc, &sale, &OUT_OF_ORDER)
}
