ghost use Rattle.std.specs.Prelude.{◌≡◌, ◌<◌, List, ℕ, IsTrue};

use std::alloc::Global;
use std::marker::Brand;
use std::sync::ledger::{Blank, Ledger};
use std::test::Fail;
use sy_base::{List, Memory, Text};
use sy_outside::{Named, Steps, SureFiles, SureSink, SureSource};
use sy_run::{Status, run};

/// The texts of a specification and its binding.
#[derive(Clone, Copy)]
pub struct Contract<'a> {
    pub spec: &'a [u8],
    pub bind: &'a [u8],
}

/// A log under a contract, how a run over it ends, and what it writes.
#[derive(Clone, Copy)]
pub struct Row {
    pub log: &'static str,
    pub status: Status,
    pub told: &'static str,
}

/// How a run ended, and what it wrote.
#[derive(Drop)]
struct Ran {
    status: Status,
    out: Text,
}

fn file(alloc: Global, name: &[u8], bytes: &[u8]) -> Result<Named, Memory> {
    Ok(Named {
        name: Text::new(alloc, name)?,
        bytes: Text::new(alloc, bytes)?,
    })
}

fn files(alloc: Global, contract: &Contract) -> Result<SureFiles, Memory> {
    let mut files = List::new(alloc);
    files.push(file(alloc, b"SPEC", contract.spec)?)?;
    files.push(file(alloc, b"BIND", contract.bind)?)?;
    Ok(SureFiles::new(files))
}

fn words(alloc: Global) -> Result<List<Text>, Memory> {
    let mut words = List::new(alloc);
    words.push(Text::new(alloc, b"monitor")?)?;
    words.push(Text::new(alloc, b"SPEC")?)?;
    words.push(Text::new(alloc, b"BIND")?)?;
    Ok(words)
}

fn counted<L: Ledger>(
    alloc: Global,
    contract: &Contract,
    log: &[u8],
    most: usize,
    blank: Blank,
) -> Result<Ran, Memory>
    requires most { 0 < most }
    requires name { blank.name ≡ L.name }
    requires parts { blank.parts ≡ L.parts }
    requires some { 0 < blank.parts }
{
    let words = words(alloc)?;
    let mut files = files(alloc, contract)?;
    let mut input = SureSource::new(Text::new(alloc, log)?, most);
    let mut out = SureSink::new(alloc, 100_000)?;
    let mut steps = Steps::<L>::new(blank);
    let status = run(
        alloc,
        words.items(),
        &mut files,
        &mut input,
        &mut out,
        &mut steps,
    );
    Ok(Ran {
        status,
        out: Text::new(alloc, out.bytes())?,
    })
}

/// Follows a contract along a log that comes in pieces of at most so many bytes.
fn outcome(alloc: Global, contract: &Contract, log: &[u8], most: usize) -> Result<Ran, Memory>
    requires { 0 < most }
{
    counted::<Brand>(alloc, contract, log, most, Blank::new(1))
}

/// Whether a log is told so, where it comes in pieces of at most so many bytes.
fn is_told_in_pieces(
    alloc: Global,
    contract: &Contract,
    log: &str,
    most: usize,
    status: Status,
    told: &str,
) -> Result<(), Fail>
    requires { 0 < most }
{
    let ran = outcome(alloc, contract, log.as_bytes(), most)?;
    if ran.status != status || ran.out.bytes() != told.as_bytes() {
        let out = String::from_utf8_lossy(alloc, ran.out.bytes())?;
        return Err(Fail::from(format!(in alloc; "{log}is told:\n{out}")?));
    }
    Ok(())
}

/// Whether a log is told so, in one piece and a byte at a time.
pub fn is_told(
    alloc: Global,
    contract: &Contract,
    log: &str,
    status: Status,
    told: &str,
) -> Result<(), Fail> {
    is_told_in_pieces(alloc, contract, log, 1, status, told)?;
    is_told_in_pieces(alloc, contract, log, 100_000, status, told)
}

/// Whether each row under a contract is told what stands in it.
pub fn are_told(alloc: Global, contract: &Contract, rows: &[Row]) -> Result<(), Fail> {
    for row in rows {
        is_told(alloc, contract, row.log, row.status, row.told)?;
    }
    Ok(())
}
