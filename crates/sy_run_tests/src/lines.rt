use crate::case::{Case, FORM, outcome};
use std::alloc::{AllocError, Global};
use std::test::Fail;
use sy_run::Status;
use sy_samples::{m, m_bind};

/// Whether a log of the sale of meat, which comes in pieces of at most so many bytes, is told so.
fn is_told_in_pieces(
    alloc: Global,
    log: &str,
    most: usize,
    status: Status,
    told: &str,
) -> Result<(), Fail> {
    let case = Case {
        words: &[b"monitor", b"SPEC", b"BIND"],
        spec: m(),
        bind: m_bind(),
        input: log.as_bytes(),
        most,
        failing_read_of_file: 0,
        failing_read: 0,
        failing_write: 0,
    };
    let ran = outcome(alloc, &case)?;
    if ran.status != status || ran.out.bytes() != told.as_bytes() {
        let out = String::from_utf8_lossy(alloc, ran.out.bytes())?;
        return Err(Fail::from(format!(in alloc; "{log}is told:\n{out}")?));
    }
    Ok(())
}

/// Whether a log of the sale of meat is told so, in one piece and a byte at a time.
fn is_told(alloc: Global, log: &str, status: Status, told: &str) -> Result<(), Fail> {
    is_told_in_pieces(alloc, log, 1, status, told)?;
    is_told_in_pieces(alloc, log, 100_000, status, told)
}

/// Whether a line of the sale of meat is refused so, where it is the fourth of a log. What was
/// reported before it stays, and nothing is reported behind it.
fn is_refused(alloc: Global, line: &str, fault: &str) -> Result<(), Fail> {
    let log = format!(in alloc;
        "report 2024-02-29\n\n// The fourth line.\n{line}\nreport 2024-02-29\n"
    )?;
    let told = format!(in alloc; "{FORM}refused log 4 {fault}\n")?;
    is_told(alloc, &log, Status::Refused, &told)
}

/// Whether each line is refused for that fault.
fn are_refused(alloc: Global, fault: &str, lines: &[&str]) -> Result<(), Fail> {
    for line in lines {
        is_refused(alloc, line, fault)?;
    }
    Ok(())
}

/// Lines that are none, whatever they name and whatever their date is.
static NO_LINES: [&str; 15] = [
    "report",
    "report 2024-03-0",
    "report 2024-03-05 2024-03-06",
    "at 2024-03-05",
    "at 2024-3-5 exert pEnd",
    "at 2024-03-05 happens disclosed[]",
    "at 2024-03-05 happens paid[amount := 100",
    "at 2024-03-05 happens paid[amount = 100]",
    "at 2024-03-05 happens delivered[address := \"Dock\\n\"]",
    "at 2024-03-05 happens start",
    "at 2024-03-05 exert pEnd[amount := 100]",
    "at 2024-03-05 exert pEnd $",
    "at 2024-02-29 happens lost[",
    "at 2024-02-30 exert oPay $",
    "at 2024-02-30 happens disclosed[]",
];

/// Lines that name no event or no power, whatever their values and their date are.
static UNKNOWN: [&str; 9] = [
    "at 2024-03-05 happens lost",
    "at 2024-03-05 happens Paid[amount := 100]",
    "at 2024-03-05 happens goods",
    "at 2024-03-05 happens pEnd",
    "at 2024-03-05 exert oPay",
    "at 2024-03-05 exert oSecret",
    "at 2024-03-05 happens lost[amount := true]",
    "at 2024-02-30 happens goods",
    "at 2024-02-29 exert oPay",
];

/// Lines whose values aren't those of the event, whatever their date is. Which goods are delivered is
/// told by the contract and not by the log.
static WRONG: [&str; 13] = [
    "at 2024-03-05 happens paid",
    "at 2024-03-05 happens paid[amount := 100, amount := 100]",
    "at 2024-03-05 happens paid[amount := \"100\"]",
    "at 2024-03-05 happens paid[amount := price]",
    "at 2024-03-05 happens paid[amount := 1000000000000001]",
    "at 2024-03-05 happens paid[sum := 100]",
    "at 2024-03-05 happens paid[amount := 100, address := \"Dock 1\"]",
    "at 2024-03-05 happens disclosed[amount := 100]",
    "at 2024-03-05 happens delivered[item := goods, address := \"Dock 1\"]",
    "at 2024-03-05 happens delivered[address := true]",
    "at 2024-02-30 happens paid",
    "at 3000-01-01 happens paid[amount := 100, amount := 100]",
    "at 2024-02-29 happens disclosed[amount := 100]",
];

/// Lines whose date isn't one, or is finer than a day, even if it stands before start.
static UNDATED: [&str; 10] = [
    "report 2024-02-30",
    "report 2024-03-05T00",
    "report 1899-12-31",
    "at 3000-01-01 happens disclosed",
    "at 2024-13-01 happens paid[amount := 100]",
    "at 2024-03-05T10:00 exert pEnd",
    "at 2024-02-29T10 exert pEnd",
    "at 2023-02-29 happens disclosed",
    "at 1899-12-31 happens paid[amount := 100]",
    "at 0000-00-00T99:99 exert pHold",
];

/// What is told before start.
static EARLY: [&str; 4] = [
    "at 2024-02-29 exert pEnd",
    "at 2024-02-29 happens disclosed",
    "at 2023-03-05 happens paid[amount := 100]",
    "at 1900-01-01 happens delivered[address := \"Dock 1\"]",
];

#[test]
fn the_first_fault_of_a_line_is_told(rt: HostRuntime) -> Result<(), Fail> {
    let alloc = rt.alloc();
    are_refused(alloc, "BadToken", &NO_LINES)?;
    are_refused(alloc, "UnknownName", &UNKNOWN)?;
    are_refused(alloc, "WrongValues", &WRONG)?;
    are_refused(alloc, "BadDate", &UNDATED)?;
    are_refused(alloc, "TooEarly", &EARLY)
}

/// These bytes with blanks behind them, up to so many bytes.
fn padded(alloc: Global, begin: &str, length: usize) -> Result<String, AllocError> {
    let mut line = String::from_str(alloc, begin)?;
    for _blank in begin.len()..length {
        line.push(' ')?;
    }
    Ok(line)
}

/// How long lines begin, and their fault where they aren't too long.
static LONG: [(&str, &str); 4] = [
    ("$", "BadToken"),
    ("at 2024-03-05 happens lost", "UnknownName"),
    ("report 2024-02-30", "BadDate"),
    ("at 2024-02-29 exert pEnd //", "TooEarly"),
];

#[test]
fn the_length_of_a_line_is_looked_at_first(rt: HostRuntime) -> Result<(), Fail> {
    let alloc = rt.alloc();
    for (begin, fault) in &LONG {
        let longest = padded(alloc, begin, 4096)?;
        is_refused(alloc, &longest, fault)?;
        let longer = padded(alloc, begin, 4097)?;
        is_refused(alloc, &longer, "TooLong")?;
    }
    Ok(())
}

#[test]
fn a_line_of_blanks_says_nothing(rt: HostRuntime) -> Result<(), Fail> {
    let alloc = rt.alloc();
    let blanks = padded(alloc, "", 4096)?;
    is_told(alloc, &blanks, Status::Done, "")?;
    let more = padded(alloc, "", 4097)?;
    is_told(alloc, &more, Status::Refused, "refused log 1 TooLong\n")
}
