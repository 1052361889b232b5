ghost use Rattle.std.specs.Prelude.{◌≡◌, ◌<◌, List, ℕ, IsTrue};

use std::alloc::Global;
use std::marker::Brand;
use std::sync::ledger::{Blank, Ledger};
use sy_base::{List, Memory, Text};
use sy_outside::{MemFiles, MemSink, MemSource, Named, Steps};
use sy_run::{Status, run};

/// The report of the sale of meat before its start.
pub const FORM: &str = "\
report 2024-02-29
contract Form
obligation oDeliver Null
obligation oPay Null
obligation oLate Null
surviving oSecret Null
power pHold Null
power pGo Null
power pEnd Null
post 1 Open
end
";

/// What a run is given: its words, its files, its input in pieces of at most so many bytes, and the
/// numbers of the calls that are to fail, or 0 for none.
#[derive(Clone, Copy)]
pub struct Case<'a> {
    pub words: &'a [&'a [u8]],
    pub spec: &'a [u8],
    pub bind: &'a [u8],
    pub input: &'a [u8],
    pub most: usize,
    pub failing_read_of_file: u64,
    pub failing_read: u64,
    pub failing_write: u64,
}

/// How a run ended, and what it wrote.
#[derive(Drop)]
pub struct Ran {
    pub status: Status,
    pub out: Text,
}

fn file(alloc: Global, name: &[u8], bytes: &[u8]) -> Result<Named, Memory> {
    Ok(Named {
        name: Text::new(alloc, name)?,
        bytes: Text::new(alloc, bytes)?,
    })
}

fn only(alloc: Global, call: u64) -> Result<List<u64>, Memory> {
    let mut calls = List::new(alloc);
    calls.push(call)?;
    Ok(calls)
}

fn texts(alloc: Global, words: &[&[u8]]) -> Result<List<Text>, Memory> {
    let mut texts = List::new(alloc);
    for word in words {
        texts.push(Text::new(alloc, word)?)?;
    }
    Ok(texts)
}

fn counted<L: Ledger>(alloc: Global, case: &Case, blank: Blank) -> Result<Ran, Memory>
    requires name { blank.name ≡ L.name }
    requires parts { blank.parts ≡ L.parts }
    requires some { 0 < blank.parts }
{
    let words = texts(alloc, case.words)?;
    let mut list = List::new(alloc);
    list.push(file(alloc, b"SPEC", case.spec)?)?;
    list.push(file(alloc, b"BIND", case.bind)?)?;
    let mut files = MemFiles::new(list, only(alloc, case.failing_read_of_file)?);
    let input = Text::new(alloc, case.input)?;
    let mut input = MemSource::new(input, case.most.max(1), only(alloc, case.failing_read)?);
    let mut out = MemSink::new(alloc, 100_000, only(alloc, case.failing_write)?)?;
    let mut steps = Steps::<L>::new(blank);
    let status = run(
        alloc,
        words.items(),
        &mut files,
        &mut input,
        &mut out,
        &mut steps,
    );
    Ok(Ran {
        status,
        out: Text::new(alloc, out.bytes())?,
    })
}

/// Runs a case.
pub fn outcome(alloc: Global, case: &Case) -> Result<Ran, Memory> {
    counted::<Brand>(alloc, case, Blank::new(1))
}
