use crate::told::{Contract, Row, are_told};
use std::test::Fail;
use sy_run::Status;

/// A contract whose postconditions have each form of a proposition, so that reports show their
/// verdicts. The parameters are the third day and 3.
static FORMS: Contract = Contract {
    spec: b"\
Domain forms
Side isA Role;
Size isAn Enumeration(Small, Great);
Step isAn Event with Env count: Number, Env size: Size;
Order isAn Event with due: Date, weeks: Number;
endDomain
Contract Forms(a: Side, first: Date, days: Number) unit Day
Declarations
b: Side;
step: Step;
order: Order with due := first, weeks := 1 + 1;
Postconditions
happens(step);
happens(step[count >= 2, size = Great]);
happensBefore(step, first + days Days);
happensAfter(step, order.due);
happensWithin(step, first, first + 1 Day);
happensWithin(step, time(order), time(order) + order.weeks Weeks);
occurs(state(oStep) = InEffect, first, first + 2 Days);
holds(state(oStep) = Fulfillment);
not happensBefore(step, 2024-01-03);
happens(step) and not happens(order);
days = 3 or happens(order);
days + 1 < 2 * 2 and happens(step);
happens(fulfilled(oStep));
happensBefore(order, time(fulfilled(oStep)) + 1 Week + 1 Day);
false or (happens(order) and true);
Obligations
oStep: O(a, b, true, happensWithin(step[size = Great], first, first + 4 Days));
endContract
",
    bind: b"start 2024-01-01;\na := {};\nfirst := 2024-01-03;\ndays := 3;\n",
};

/// A log of three days, and the verdicts before, at and after each.
static ROWS: [Row; 1] = [Row {
    log: "\
at 2024-01-02 happens step[count := 5, size := Small]
at 2024-01-05 happens step[count := 2, size := Great]
at 2024-01-06 happens order
report 2024-01-01
report 2024-01-02
report 2024-01-04
report 2024-01-05
report 2024-01-06
report 2024-01-20
",
    status: Status::Done,
    told: "\
report 2024-01-01
contract InEffect
obligation oStep InEffect
post 1 Open
post 2 Open
post 3 Open
post 4 Open
post 5 Open
post 6 Open
post 7 Open
post 8 False
post 9 Open
post 10 Open
post 11 True
post 12 False
post 13 Open
post 14 Open
post 15 Open
end
report 2024-01-02
contract InEffect
obligation oStep InEffect
post 1 True
post 2 Open
post 3 True
post 4 Open
post 5 Open
post 6 Open
post 7 Open
post 8 False
post 9 False
post 10 Open
post 11 True
post 12 False
post 13 Open
post 14 Open
post 15 Open
end
report 2024-01-04
contract InEffect
obligation oStep InEffect
post 1 True
post 2 Open
post 3 True
post 4 Open
post 5 False
post 6 Open
post 7 Open
post 8 False
post 9 False
post 10 Open
post 11 True
post 12 False
post 13 Open
post 14 Open
post 15 Open
end
report 2024-01-05
contract SuccessfulTermination
obligation oStep Fulfillment
post 1 True
post 2 True
post 3 True
post 4 True
post 5 False
post 6 Open
post 7 True
post 8 False
post 9 False
post 10 Open
post 11 True
post 12 False
post 13 True
post 14 Open
post 15 Open
end
report 2024-01-06
contract SuccessfulTermination
obligation oStep Fulfillment
post 1 True
post 2 True
post 3 True
post 4 True
post 5 False
post 6 Open
post 7 True
post 8 True
post 9 False
post 10 False
post 11 True
post 12 False
post 13 True
post 14 True
post 15 True
end
report 2024-01-20
contract SuccessfulTermination
obligation oStep Fulfillment
post 1 True
post 2 True
post 3 True
post 4 True
post 5 False
post 6 False
post 7 True
post 8 True
post 9 False
post 10 False
post 11 True
post 12 False
post 13 True
post 14 True
post 15 True
end
",
}];

#[test]
fn propositions_of_each_form_are_reported(rt: HostRuntime) -> Result<(), Fail> {
    are_told(rt.alloc(), &FORMS, &ROWS)
}
