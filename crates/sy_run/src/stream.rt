ghost use Rattle.std.specs.Prelude.{◌≡◌, ◌+◌, List, [], ℕ, IfNone, IfSome, Some};
ghost use Rattle.std.specs.declared.option.Option.{Option};
ghost use Rattle.sy_outside.specs.LineReaderState.{new_line_reader};
ghost use Rattle.sy_core.specs.declared.deed.Deed.{Deed};
ghost use Rattle.sy_run.specs.Machine.Replies.{Follows};
ghost use Rattle.sy_run.specs.Machine.Stream.{AfterLine, CausedIf, IsReadingStatus, IsReady, SoFar, StreamCaused, StreamEnds, WritesReply};

use crate::log::{Log, reply_next};
use crate::status::Status;
use crate::stop::end;
use std::alloc::Global;
use std::sync::ledger::Ledger;
use sy_base::Text;
use sy_outside::{LineReader, Sink, Source, Steps, write_all};

/// Writes what is answered to a line. It answers a status where the stream ends.
fn write_reply<W: Sink>(text: &Text, out: &mut W) -> Option<Status>
    ensures written { WritesReply (W.held out.old) (W.held out.new) text.now result }
    ensures cause { (read : ℕ) → CausedIf read read (W.faults out.old) (W.faults out.new) result }
{
    match write_all(out, text.bytes()) {
        Ok(()) => None,
        Err(_) => Some(Status::WriteFault),
    }
}

/// Answers the next line. It answers a status where the stream ends.
fn one_line<S: Source, W: Sink, L: Ledger>(
    alloc: Global,
    log: &mut Log,
    reader: &mut LineReader,
    input: &mut S,
    out: &mut W,
    steps: &mut Steps<L>,
) -> Option<Status>
    requires ready { IsReady reader.old log.old.lines }
    ensures told { (deed : Deed) (bytes : List ℕ) (first : Option (List ℕ))
        → SoFar deed log.old.monitor reader.old bytes (S.left input.old) first (W.held out.old)
        → AfterLine deed log.new.monitor reader.new bytes (S.left input.new) first (W.held out.new) result }
    ensures cause { CausedIf (S.faults input.old) (S.faults input.new) (W.faults out.old) (W.faults out.new) result }
    ensures ready { IfNone result (IsReady reader.new log.new.lines) }
    ensures ascends { IfNone result (log.new.lines ≡ log.old.lines + 1) }
    ensures status { IfSome result IsReadingStatus }
{
    match reply_next(alloc, log, reader, input, steps) {
        Ok(Some(text)) => write_reply(&text, out),
        Ok(None) => Some(Status::Done),
        Err(why) => Some(end(alloc, &why, out)),
    }
}

/// Answers each line of the input, up to its end or to the first refusal.
pub(crate) fn stream<S: Source, W: Sink, L: Ledger>(
    alloc: Global,
    log: &mut Log,
    reader: &mut LineReader,
    input: &mut S,
    out: &mut W,
    steps: &mut Steps<L>,
) -> Status
    requires new { reader.old ≡ new_line_reader }
    requires none { log.old.monitor.happened ≡ [] }
    requires counted { log.old.lines ≡ 0 }
    ensures told { (bytes : List ℕ) → S.left input.old ≡ Some bytes
        → StreamEnds log.old.monitor.deed bytes (S.left input.new) (W.held out.old) (W.held out.new) result }
    ensures cause { StreamCaused (S.faults input.old) (S.faults input.new) (W.faults out.old) (W.faults out.new) result }
    ensures status { IsReadingStatus result }
{
    'lines: loop {
        if let Some(status) = one_line(alloc, log, reader, input, out, steps) {
            return status;
        }
    }
}
