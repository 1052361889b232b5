ghost use Rattle.std.specs.Prelude.{◌<◌, ◌^◌, length};

/// The least contract that is of use: one party owes the other a payment before 2024-03-11.
pub fn s() -> &'static [u8]
    ensures { length result.now < 2 ^ 32 }
{
    b"\
Domain s
Party isA Role;
Paid isAn Event;
endDomain
Contract S() unit Day
Declarations
a: Party;
b: Party;
paid: Paid;
Obligations
oPay: O(a, b, true, happensBefore(paid, 2024-03-11));
endContract
"
}

/// The binding of the first sale: it starts on 2024-03-01.
pub fn s_bind() -> &'static [u8]
    ensures { length result.now < 2 ^ 32 }
{
    b"start 2024-03-01;\n"
}

/// The first sale with one power more: once the payment is overdue, the creditor may suspend the
/// contract.
pub fn s2() -> &'static [u8]
    ensures { length result.now < 2 ^ 32 }
{
    b"\
Domain s
Party isA Role;
Paid isAn Event;
endDomain
Contract S() unit Day
Declarations
a: Party;
b: Party;
paid: Paid;
Obligations
oPay: O(a, b, true, happensBefore(paid, 2024-03-11));
Powers
pHold: happens(violated(oPay)) -> P(b, a, true, suspends(contract));
endContract
"
}

/// What `compile` writes for the first sale: its canonical text, and the order in which the
/// obligation and the contract are evaluated.
pub fn s_compiled() -> &'static [u8]
    ensures { length result.now < 2 ^ 32 }
{
    b"\
Domain s
Party isA Role ;
Paid isA Event ;
endDomain
Contract S ( ) unit Day
Declarations
a : Party ;
b : Party ;
paid : Paid ;
Obligations
oPay : O ( a , b , true , happensBefore ( paid , 2024-03-11 ) ) ;
endContract
order Trig(oPay)
order Act(oPay)
order End(oPay)
order Contract
"
}
