//! The program: it makes the objects of the outside, calls `run` with its words, and ends with the
//! status. The objects are in `host.rt`: files by name, standard input and standard output. They tell
//! contracts nothing of content, so contracts speak of safety and of the causes of faults alone.
#![tactic(auto)]

ghost use Rattle.std.specs.Prelude.{◌≡◌, ◌<◌, List, ℕ, IsTrue};

mod host;

use host::{HostFiles, StdInput, StdOutput};
use std::alloc::Global;
use std::env::FillError;
use std::io;
use std::marker::Brand;
use std::process::ExitCode;
use std::rt::Env;
use std::sync::ledger::{Blank, Ledger};
use sy_base::{List, Memory, Text};
use sy_outside::{Files, Sink, Source, Steps};
use sy_run::{Status, run};

/// The greatest length of a word in bytes: the system passes no longer one.
const WORD_LIMIT: usize = 131_072;

/// The words after the program's name. They need not be UTF-8.
fn words<R: Env>(rt: &R, alloc: Global) -> Result<List<Text>, Memory> {
    let mut words = List::new(alloc);
    let mut buf = vec![in alloc; 0; WORD_LIMIT]?;
    for number in 1..usize::MAX {
        match rt.arg(number, &mut buf) {
            Ok(length) => words.push(Text::new(alloc, &buf[..length])?)?,
            Err(FillError::NotPresent) => break,
            Err(FillError::TooLong) => return Err(Memory),
        }
    }
    Ok(words)
}

/// Runs with a counter of steps that begins at 0.
fn counted<L: Ledger, F: Files, S: Source, W: Sink>(
    alloc: Global,
    words: &[Text],
    files: &mut F,
    input: &mut S,
    out: &mut W,
    blank: Blank,
) -> Status
    requires name { blank.name ≡ L.name }
    requires parts { blank.parts ≡ L.parts }
    requires some { 0 < blank.parts }
    requires lent { (n : List ℕ) → IsTrue (F.lent files.old n) }
{
    let mut steps = Steps::<L>::new(blank);
    run(alloc, words, files, input, out, &mut steps)
}

fn main(rt: HostRuntime) -> ExitCode {
    let Ok(words) = words(&rt, rt.alloc()) else {
        return ExitCode::from(Status::Memory.number());
    };
    let mut files = HostFiles::new(&rt, rt.alloc());
    let mut input = StdInput::new(rt.reader());
    let mut out = StdOutput::new(io::writer(&rt));
    let status = counted::<Brand, _, _, _>(
        rt.alloc(),
        words.items(),
        &mut files,
        &mut input,
        &mut out,
        Blank::new(1),
    );
    ExitCode::from(status.number())
}
