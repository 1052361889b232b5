use crate::case::{Case, Ran, outcome};
use std::alloc::Global;
use std::test::Fail;
use sy_base::Memory;
use sy_run::Status;
use sy_samples::{m, m_bind, s, s_bind, s_compiled, t};

const MONITOR: &[&[u8]] = &[b"monitor", b"SPEC", b"BIND"];

const USAGE: &[u8] =
    b"usage: symboleo compile SPEC | monitor SPEC BIND | check SPEC BIND PROPS BUDGET | certify SPEC BIND PROPS NAME BUDGET | verify SPEC BIND PROPS NAME | replay SPEC BIND PROPS NAME | make SEED COUNT\n";

const COMPILE: &[&[u8]] = &[b"compile", b"SPEC"];

/// The order in which the nodes of the first sale are evaluated.
const ORDER: &[u8] = b"order Trig(oPay)\norder Act(oPay)\norder End(oPay)\norder Contract\n";

/// The order in which the nodes of the meat sale are evaluated.
static SALE_ORDER: &[u8] = b"\
order Trig(oDeliver)
order Act(oDeliver)
order Trig(oPay)
order Trig(oSecret)
order Act(oSecret)
order End(oSecret)
order Exert(pHold)
order Trig(pHold)
order Act(pHold)
order Exert(pGo)
order Act(oPay)
order Trig(pGo)
order Act(pGo)
order Exert(pEnd)
order End(oDeliver)
order End(oPay)
order Trig(oLate)
order Act(oLate)
order End(oLate)
order End(pHold)
order End(pGo)
order Trig(pEnd)
order Act(pEnd)
order End(pEnd)
order Contract
";

/// A run of `compile` without faults.
fn compiled(alloc: Global, spec: &[u8]) -> Result<Ran, Memory> {
    let case = Case {
        words: COMPILE,
        spec,
        bind: b"",
        input: b"",
        most: 100,
        failing_read_of_file: 0,
        failing_read: 0,
        failing_write: 0,
    };
    outcome(alloc, &case)
}

#[test]
fn a_canonical_text_is_compiled_to_itself(rt: HostRuntime) -> Result<(), Fail> {
    let canonical = s_compiled().strip_suffix(ORDER).unwrap_or(b"");
    let once = compiled(rt.alloc(), s())?;
    assert_eq!(rt; once.status, Status::Done);
    assert_eq!(rt; once.out.bytes(), s_compiled());
    let twice = compiled(rt.alloc(), canonical)?;
    assert_eq!(rt; twice.status, Status::Done);
    assert_eq!(rt; twice.out.bytes(), s_compiled());
    Ok(())
}

#[test]
fn the_order_is_written_behind_the_text(rt: HostRuntime) -> Result<(), Fail> {
    let sale = compiled(rt.alloc(), m())?;
    assert_eq!(rt; sale.status, Status::Done);
    assert!(rt; sale.out.bytes().ends_with(SALE_ORDER));
    Ok(())
}

#[test]
fn a_text_is_refused_where_it_goes_wrong(rt: HostRuntime) -> Result<(), Fail> {
    let word = vec![in rt.alloc(); b'a'; 65]?;
    let table: [(&[u8], &[u8]); 8] = [
        (b"", b"refused spec 1:1 SyntaxFault\n"),
        (b"Domain", b"refused spec 1:7 SyntaxFault\n"),
        (b"Domain 9", b"refused spec 1:8 SyntaxFault 9\n"),
        (b"Domain s #", b"refused spec 1:10 LexFault\n"),
        (b"\"ab", b"refused spec 1:4 LexFault\n"),
        (b"! =", b"refused spec 1:2 LexFault\n"),
        (b"Domain s\n/", b"refused spec 2:2 LexFault\n"),
        (&word, b"refused spec 1:65 LexFault\n"),
    ];
    for (spec, told) in table {
        let ran = compiled(rt.alloc(), spec)?;
        assert_eq!(rt; ran.status, Status::Refused);
        assert_eq!(rt; ran.out.bytes(), told);
    }
    Ok(())
}

#[test]
fn a_cycle_is_refused(rt: HostRuntime) -> Result<(), Fail> {
    let crossed = compiled(rt.alloc(), t())?;
    assert_eq!(rt; crossed.status, Status::Refused);
    assert_eq!(rt;
        crossed.out.bytes(),
        b"refused spec 11:1 InstantCycle Trig(o1) End(o2) Trig(o2) End(o1)\n".as_slice()
    );
    Ok(())
}

/// The binding of the sale of meat, without its price.
const WITHOUT_PRICE: &[u8] = b"\
start 2024-03-01;
seller := { name := \"Farm\" };
buyer := { name := \"Shop\" };
qnt := 500;
dueDays := 10;
";

/// The same, of nothing.
const OF_NOTHING: &[u8] = b"\
start 2024-03-01;
seller := { name := \"Farm\" };
buyer := { name := \"Shop\" };
qnt := 0;
price := 100;
dueDays := 10;
";

/// What is written where the words and the files are accepted, and the first line of the log isn't.
const AT_LAST: &[u8] = b"refused log 1 BadToken\n";

#[test]
fn words_and_files_are_answered(rt: HostRuntime) -> Result<(), Fail> {
    let spec = Vec::from_slice(rt.alloc(), s())?;
    let bind = Vec::from_slice(rt.alloc(), s_bind())?;
    let crossed = Vec::from_slice(rt.alloc(), t())?;
    let sale = Vec::from_slice(rt.alloc(), m())?;
    let sale_bind = Vec::from_slice(rt.alloc(), m_bind())?;
    let big = vec![in rt.alloc(); b' '; 1_048_577]?;
    let limit = vec![in rt.alloc(); b' '; 1_048_576]?;
    // The words come first, then the specification, then the binding, and the log at last.
    let table: [(&[&[u8]], &[u8], &[u8], Status, &[u8]); 25] = [
        (&[], &spec, &bind, Status::Usage, USAGE),
        (&[b"monitor", b"SPEC"], &spec, &bind, Status::Usage, USAGE),
        (
            &[b"compile", b"SPEC", b"BIND"],
            &spec,
            &bind,
            Status::Usage,
            USAGE,
        ),
        (
            &[b"Monitor", b"NONE", b"NONE"],
            &spec,
            &bind,
            Status::Usage,
            USAGE,
        ),
        (
            &[b"monitor", b"NONE", b"BIND"],
            &spec,
            b"start",
            Status::ReadFault,
            b"",
        ),
        (
            &[b"monitor", b"SPEC", b"NONE"],
            &spec,
            &bind,
            Status::ReadFault,
            b"",
        ),
        (
            MONITOR,
            b"Domain s\n",
            b"start",
            Status::Refused,
            b"refused spec 2:1 SyntaxFault\n",
        ),
        (
            &[b"monitor", b"SPEC", b"NONE"],
            b"",
            &bind,
            Status::Refused,
            b"refused spec 1:1 SyntaxFault\n",
        ),
        (
            MONITOR,
            b"Domain s\nParty isA Role;\nPaid is An Event;\n",
            &bind,
            Status::Refused,
            b"refused spec 3:6 SyntaxFault is\n",
        ),
        (
            MONITOR,
            b"Domain s\n  @",
            &bind,
            Status::Refused,
            b"refused spec 2:3 LexFault\n",
        ),
        (
            &[b"monitor", b"SPEC", b"NONE"],
            &crossed,
            &bind,
            Status::Refused,
            b"refused spec 11:1 InstantCycle Trig(o1) End(o2) Trig(o2) End(o1)\n",
        ),
        (
            MONITOR,
            &crossed,
            &big,
            Status::Refused,
            b"refused spec 11:1 InstantCycle Trig(o1) End(o2) Trig(o2) End(o1)\n",
        ),
        (
            MONITOR,
            b"Domain d endDomain Contract C() unit Day endContract",
            &bind,
            Status::Refused,
            AT_LAST,
        ),
        (
            MONITOR,
            b"Domain s // the first\nParty isAn Role; Paid isA Event; endDomain Contract S ( ) unit Day Declarations a: Party; b: Party; paid: Paid; Obligations oPay: O(a, b, (true), happensBefore(paid, 2024-03-11)); Powers endContract",
            &bind,
            Status::Refused,
            AT_LAST,
        ),
        (MONITOR, &sale, &sale_bind, Status::Refused, AT_LAST),
        (
            MONITOR,
            &sale,
            WITHOUT_PRICE,
            Status::Refused,
            b"refused bind MissingParam price\n",
        ),
        (
            MONITOR,
            &sale,
            OF_NOTHING,
            Status::Refused,
            b"refused spec 18:1 PreconditionFalse qnt\n",
        ),
        (
            MONITOR,
            &spec,
            b"start 2024-03-01;\nprice := 100;\n",
            Status::Refused,
            b"refused bind 2:1 ExtraParam price\n",
        ),
        (
            MONITOR,
            &spec,
            b"start 2024-02-30;\n",
            Status::Refused,
            b"refused bind 1:7 BadDate 2024-02-30\n",
        ),
        (
            MONITOR,
            &spec,
            b"start 2024-03-01\n",
            Status::Refused,
            b"refused bind 2:1 SyntaxFault\n",
        ),
        (
            MONITOR,
            &big,
            &bind,
            Status::Refused,
            b"refused spec TooBig\n",
        ),
        (
            MONITOR,
            &limit,
            &big,
            Status::Refused,
            b"refused spec 1:1048577 SyntaxFault\n",
        ),
        (
            MONITOR,
            &spec,
            &big,
            Status::Refused,
            b"refused bind TooBig\n",
        ),
        (
            MONITOR,
            &spec,
            &limit,
            Status::Refused,
            b"refused bind 1:1048577 SyntaxFault\n",
        ),
        (
            COMPILE,
            b"Domain s",
            &bind,
            Status::Refused,
            b"refused spec 1:9 SyntaxFault\n",
        ),
    ];
    for (words, spec, bind, status, out) in table {
        let case = Case {
            words,
            spec,
            bind,
            input: b"nonsense\n",
            most: 100,
            failing_read_of_file: 0,
            failing_read: 0,
            failing_write: 0,
        };
        let ran = outcome(rt.alloc(), &case)?;
        assert_eq!(rt; ran.status, status);
        assert_eq!(rt; ran.out.bytes(), out);
    }
    Ok(())
}
