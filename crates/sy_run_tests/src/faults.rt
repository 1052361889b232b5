use crate::case::{Case, FORM, outcome};
use std::test::Fail;
use sy_run::Status;
use sy_samples::{m, m_bind, s, s_bind};

/// Three reports, of 18 bytes a line.
const LOG: &[u8] = b"report 2024-02-29\nreport 2024-02-29\nreport 2024-02-29\n";

const THREE: &[u8] =
    b"report 2024-02-29\ncontract Form\nobligation oPay Null\nend\nreport 2024-02-29\ncontract Form\nobligation oPay Null\nend\nreport 2024-02-29\ncontract Form\nobligation oPay Null\nend\n";

/// How many bytes one of the reports has.
const REPORT: usize = 57;

fn with_faults<'a>(file: u64, read: u64, write: u64) -> Case<'a> {
    Case {
        words: &[b"monitor", b"SPEC", b"BIND"],
        spec: s(),
        bind: s_bind(),
        input: LOG,
        most: 1,
        failing_read_of_file: file,
        failing_read: read,
        failing_write: write,
    }
}

#[test]
fn a_failed_read_ends_the_run(rt: HostRuntime) -> Result<(), Fail> {
    // Each file takes two reads: its bytes, and its end.
    for call in 1..=4 {
        let ran = outcome(rt.alloc(), &with_faults(call, 0, 0))?;
        assert_eq!(rt; ran.status, Status::ReadFault);
        assert_eq!(rt; ran.out.bytes(), b"".as_slice());
    }
    // The input takes a read for each of its 54 bytes, and one for its end.
    for call in 1..=55 {
        let ran = outcome(rt.alloc(), &with_faults(0, call, 0))?;
        let reports = (call as usize - 1) / 18;
        assert_eq!(rt; ran.status, Status::ReadFault);
        assert_eq!(rt; ran.out.bytes(), &THREE[..reports * REPORT]);
    }
    let whole = outcome(rt.alloc(), &with_faults(5, 56, 4))?;
    assert_eq!(rt; whole.status, Status::Done);
    assert_eq!(rt; whole.out.bytes(), THREE);
    Ok(())
}

#[test]
fn a_failed_write_ends_the_run(rt: HostRuntime) -> Result<(), Fail> {
    for call in 1..=3 {
        let ran = outcome(rt.alloc(), &with_faults(0, 0, call))?;
        assert_eq!(rt; ran.status, Status::WriteFault);
        assert_eq!(rt; ran.out.bytes(), &THREE[..(call as usize - 1) * REPORT]);
    }
    Ok(())
}

#[test]
fn what_was_reported_before_a_failed_write_stays(rt: HostRuntime) -> Result<(), Fail> {
    let mut written = Vec::new(rt.alloc());
    for call in 1..=3 {
        let case = Case {
            words: &[b"monitor", b"SPEC", b"BIND"],
            spec: m(),
            bind: m_bind(),
            input: LOG,
            most: 100_000,
            failing_read_of_file: 0,
            failing_read: 0,
            failing_write: call,
        };
        let ran = outcome(rt.alloc(), &case)?;
        assert_eq!(rt; ran.status, Status::WriteFault);
        assert_eq!(rt; ran.out.bytes(), written.as_slice());
        written.extend_from_slice(FORM.as_bytes())?;
    }
    Ok(())
}

/// A run of `compile` whose calls with these numbers fail.
fn compiling(file: u64, read: u64, write: u64) -> Case<'static> {
    Case {
        words: &[b"compile", b"SPEC"],
        spec: s(),
        bind: s_bind(),
        input: LOG,
        most: 1,
        failing_read_of_file: file,
        failing_read: read,
        failing_write: write,
    }
}

#[test]
fn what_isnt_called_cannot_fail(rt: HostRuntime) -> Result<(), Fail> {
    // `compile` makes two reads of its file and one write, and reads no input.
    let table = [
        (1, 0, 0, Status::ReadFault),
        (2, 0, 0, Status::ReadFault),
        (3, 0, 0, Status::Done),
        (0, 1, 0, Status::Done),
        (0, 0, 1, Status::WriteFault),
        (0, 0, 2, Status::Done),
    ];
    for (file, read, write, status) in table {
        let ran = outcome(rt.alloc(), &compiling(file, read, write))?;
        assert_eq!(rt; ran.status, status);
        assert_eq!(rt; ran.out.bytes().is_empty(), status != Status::Done);
    }
    Ok(())
}

#[test]
fn an_empty_log_asks_for_no_write(rt: HostRuntime) -> Result<(), Fail> {
    let case = Case {
        words: &[b"monitor", b"SPEC", b"BIND"],
        spec: s(),
        bind: s_bind(),
        input: b"",
        most: 1,
        failing_read_of_file: 0,
        failing_read: 0,
        failing_write: 1,
    };
    assert_eq!(rt; outcome(rt.alloc(), &case)?.status, Status::Done);
    Ok(())
}
