ghost use Rattle.std.specs.Prelude.{◌<◌, ◌^◌, length};

/// A sale of meat. The seller delivers before a fixed date. From the delivery on the buyer has some
/// days to pay the price. If the buyer is late, the price and 10 more within 30 days mend it. The
/// buyer tells nobody of the sale before 2025, even where the contract has ended. The buyer may hold
/// the payment back once the goods are there, and let it go on later; and may end the contract.
pub fn m() -> &'static [u8]
    ensures { length result.now < 2 ^ 32 }
{
    b"\
Domain meatSale
Seller isA Role with name: Text;
Buyer isA Role with name: Text;
Grade isAn Enumeration(Prime, Choice);
Goods isAn Asset with quantity: Number, grade: Grade;
Delivered isAn Event with item: Goods, Env address: Text;
Paid isAn Event with Env amount: Number;
Disclosed isAn Event;
endDomain
Contract MeatSale(seller: Seller, buyer: Buyer, qnt: Number, price: Number, dueDays: Number) unit Day
Declarations
goods: Goods with quantity := qnt, grade := Prime;
delivered: Delivered with item := goods;
paid: Paid;
paidLate: Paid;
disclosed: Disclosed;
Preconditions
qnt > 0 and price > 0;
Postconditions
happens(delivered);
Obligations
oDeliver: O(seller, buyer, true, happensBefore(delivered, 2024-03-11));
oPay: happens(delivered) -> O(buyer, seller, true, happensBefore(paid[amount >= price], time(delivered) + dueDays Days));
oLate: happens(violated(oPay)) -> O(buyer, seller, true, happensBefore(paidLate[amount >= price + 10], time(violated(oPay)) + 30 Days));
Surviving Obligations
oSecret: O(buyer, seller, true, not happensBefore(disclosed, 2025-01-01));
Powers
pHold: happens(delivered) -> P(buyer, seller, true, suspends(oPay));
pGo: happens(suspended(oPay)) -> P(buyer, seller, true, resumes(oPay));
pEnd: P(buyer, seller, true, terminates(contract));
Constraints
goods.quantity = qnt;
endContract
"
}

/// The binding of the sale of meat: from 2024-03-01 the shop buys 500 of it from the farm for 100,
/// to be paid within 10 days of the delivery.
pub fn m_bind() -> &'static [u8]
    ensures { length result.now < 2 ^ 32 }
{
    b"\
start 2024-03-01;
seller := { name := \"Farm\" };
buyer := { name := \"Shop\" };
qnt := 500;
price := 100;
dueDays := 10;
"
}

/// The values with which questions about the sale of meat are checked: one address of delivery, a
/// payment of half or all of the price, and a late payment of just what is due then.
pub fn m_values() -> &'static [u8]
    ensures { length result.now < 2 ^ 32 }
{
    b"\
values delivered.address in \"Dock 1\";
values paid.amount in 50, 100;
values paidLate.amount in 110;
"
}
