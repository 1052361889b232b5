ghost use Rattle.std.specs.Prelude.{◌<◌, ◌^◌, length};

/// The first sale counted in minutes, with a payment that is due only after 400 years: the longest
/// span that a duration has.
pub fn l() -> &'static [u8]
    ensures { length result.now < 2 ^ 32 }
{
    b"\
Domain s
Party isA Role;
Paid isAn Event;
endDomain
Contract S() unit Minute
Declarations
a: Party;
b: Party;
paid: Paid;
Obligations
oFar: O(a, b, true, happensBefore(paid, 2024-01-01 + 146097 Days));
endContract
"
}

/// The binding of the long contract: it starts on 2024-01-01.
pub fn l_bind() -> &'static [u8]
    ensures { length result.now < 2 ^ 32 }
{
    b"start 2024-01-01;\n"
}
