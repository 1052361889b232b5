ghost use Rattle.std.specs.Prelude.{◌<◌, ◌^◌, length};

/// A contract that is refused: each of its two obligations comes about where the other one is
/// violated, so that in one point each would rest on the other.
pub fn t() -> &'static [u8]
    ensures { length result.now < 2 ^ 32 }
{
    b"\
Domain d
Party isA Role;
Go isAn Event;
endDomain
Contract C() unit Day
Declarations
a: Party;
b: Party;
go: Go;
Obligations
o1: happens(violated(o2)) -> O(a, b, true, happens(go));
o2: happens(violated(o1)) -> O(b, a, true, happens(go));
endContract
"
}
