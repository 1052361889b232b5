ghost use Rattle.std.specs.Prelude.{◌≡◌, ℕ, List, IsTrue, Some};
ghost use Rattle.sy_core.specs.Soundness.{IsSound};
ghost use Rattle.sy_run.specs.Commands as command;
ghost use Rattle.sy_run.specs.Machine.Stream.{IsReadingStatus, StreamCaused, StreamEnds};
ghost use Rattle.sy_run.specs.Run.{IsRun};

use crate::files::read_deed;
use crate::log::Log;
use crate::status::Status;
use crate::stop::end;
use crate::stream::stream;
use std::alloc::Global;
use std::sync::ledger::Ledger;
use sy_base::Text;
use sy_core::Deed;
use sy_monitor::Monitor;
use sy_outside::{Files, LineReader, Sink, Source, Steps};

/// Follows a deed along the log on the input.
fn follow<S: Source, W: Sink, L: Ledger>(
    alloc: Global,
    deed: Deed,
    input: &mut S,
    out: &mut W,
    steps: &mut Steps<L>,
) -> Status
    requires { IsSound deed }
    ensures told { (bytes : List ℕ) → S.left input.old ≡ Some bytes
        → StreamEnds deed bytes (S.left input.new) (W.held out.old) (W.held out.new) result }
    ensures cause { StreamCaused (S.faults input.old) (S.faults input.new) (W.faults out.old) (W.faults out.new) result }
    ensures status { IsReadingStatus result }
{
    let Ok(mut reader) = LineReader::new(alloc) else {
        return Status::Memory;
    };
    let Ok(monitor) = Monitor::new(alloc, deed) else {
        return Status::Memory;
    };
    let mut log = Log { monitor, lines: 0 };
    stream(alloc, &mut log, &mut reader, input, out, steps)
}

/// The command `monitor SPEC BIND`: follows the contract of a specification and its binding along
/// the log on the input, and writes each report that a line of it asks for.
pub(crate) fn monitor<F: Files, S: Source, W: Sink, L: Ledger>(
    alloc: Global,
    spec: &Text,
    bind: &Text,
    files: &mut F,
    input: &mut S,
    out: &mut W,
    steps: &mut Steps<L>,
) -> Status
    requires spec { IsTrue (F.lent files.old spec.now) }
    requires bind { IsTrue (F.lent files.old bind.now) }
    ensures { IsRun (command.Monitor spec.now bind.now)
        (record { file = F.told files.old; left = S.left input.old; held = W.held out.old; file_faults = F.faults files.old; input_faults = S.faults input.old; output_faults = W.faults out.old })
        (record { file = F.told files.new; left = S.left input.new; held = W.held out.new; file_faults = F.faults files.new; input_faults = S.faults input.new; output_faults = W.faults out.new }) result }
{
    match read_deed(alloc, files, spec, bind) {
        Ok(deed) => follow(alloc, deed, input, out, steps),
        Err(why) => end(alloc, &why, out),
    }
}
