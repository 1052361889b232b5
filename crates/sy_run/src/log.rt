ghost use Rattle.std.specs.Prelude.{◌≡◌, ◌≤◌, ◌≤ℤ◌, ◌^◌, ℕ, List, IsTrue, IfOk, IfErr, Some, Ok, [], length, false};
ghost use Rattle.sy_outside.specs.Outside.{CauseOf};
ghost use Rattle.sy_base.specs.Points.{IsDated};
ghost use Rattle.sy_base.specs.declared.refusal.FileKind.TheVariants as kind;
ghost use Rattle.sy_core.specs.declared.deed.Deed.{Deed};
ghost use Rattle.sy_core.specs.declared.happening.Happening.{Happening as Told};
ghost use Rattle.sy_core.specs.Tables as tables;
ghost use Rattle.sy_log.specs.declared.read.Entry.TheVariants as entries;
ghost use Rattle.sy_log.specs.Entries.{IsEntryOf};
ghost use Rattle.sy_report.specs.RefusalText as refusals;
ghost use Rattle.sy_report.specs.ReportText as reports;
ghost use Rattle.sy_run.specs.Output.{IsAnswered, IsReply};
ghost use Rattle.sy_run.specs.Machine.Replies.{Follows, Replies, RepliesNext, GoesOn, stop_at};
ghost use Rattle.sy_run.specs.Machine.Stopping.{is_read_stop};

use crate::stop::Stop;
use std::alloc::Global;
use std::sync::ledger::Ledger;
use sy_base::{FaultName, FileKind, Memory, Point, Text};
use sy_core::Happening;
use sy_log::{Entry, read_line};
use sy_monitor::Monitor;
use sy_outside::{Line, LineFault, LineReader, Source, Steps};
use sy_report::{of_line, report_text};
use sy_story::StoryFault;

/// What was read of a log so far.
#[derive(Drop)]
pub(crate) struct Log {
    pub(crate) monitor: Monitor,
    /// How many lines were read.
    pub(crate) lines: u64,
}

/// A line is refused.
fn refused(alloc: Global, number: u64, name: FaultName) -> Stop
    ensures { result ≡ Stop.Refused (refusals.of_line kind.Log number name) }
{
    Stop::Refused(of_line(alloc, FileKind::Log, number, name))
}

/// No bytes.
fn nothing(alloc: Global) -> Text
    ensures { result ≡ [] }
{
    Text::from(Vec::new(alloc))
}

/// Notes what the line with a number tells. What is noted already changes nothing.
fn note(
    alloc: Global,
    monitor: &mut Monitor,
    number: u64,
    happening: Happening,
) -> Result<Text, Stop>
    requires timely { monitor.old.deed.start ≤ℤ happening.point }
    ensures told { (deed : Deed) (noted : List Told) → Follows monitor.old deed noted
        → Replies monitor.new deed (IsReply deed noted number (Ok (entries.Noted happening))) result }
    ensures no_read { IfErr result (λ stop. is_read_stop stop ≡ false) }
{
    match monitor.note(happening) {
        Ok(_) => Ok(nothing(alloc)),
        // An entry that is too early was refused as it was read.
        Err(StoryFault::TooEarly) => Err(refused(alloc, number, FaultName::TooEarly)),
        Err(StoryFault::TooMany) => Err(refused(alloc, number, FaultName::TooMany)),
        Err(StoryFault::Memory) => Err(Stop::Memory),
    }
}

/// The report of a date.
fn report<L: Ledger>(
    alloc: Global,
    monitor: &Monitor,
    date: Point,
    steps: &mut Steps<L>,
) -> Result<Text, Memory>
    requires { IsDated monitor.now.deed.unit date }
    ensures { IfOk result
        (λ t. t ≡ reports.report_text monitor.now.deed (tables.table_as_of monitor.now.deed monitor.now.happened date)) }
{
    let table = monitor.report_at(date, steps)?;
    report_text(alloc, monitor.deed(), &table)
}

/// What is answered to the line with a number that says this.
fn reply_to<L: Ledger>(
    alloc: Global,
    monitor: &mut Monitor,
    number: u64,
    entry: Entry,
    steps: &mut Steps<L>,
) -> Result<Text, Stop>
    requires { IsEntryOf monitor.old.deed entry }
    ensures told { (deed : Deed) (noted : List Told) → Follows monitor.old deed noted
        → Replies monitor.new deed (IsReply deed noted number (Ok entry)) result }
    ensures no_read { IfErr result (λ stop. is_read_stop stop ≡ false) }
{
    match entry {
        Entry::Blank => Ok(nothing(alloc)),
        Entry::Noted(happening) => note(alloc, monitor, number, happening),
        Entry::Report(date) => Ok(report(alloc, monitor, date, steps)?),
    }
}

/// What is answered to a line that is short enough.
fn reply_line<L: Ledger>(
    alloc: Global,
    monitor: &mut Monitor,
    line: &Line,
    steps: &mut Steps<L>,
) -> Result<Text, Stop>
    requires short { length line.now.bytes ≤ 4096 }
    requires counted { line.now.number ≤ 2 ^ 32 }
    ensures told { (deed : Deed) (noted : List Told) → Follows monitor.old deed noted
        → Replies monitor.new deed (IsAnswered deed noted line.now.number line.now.bytes) result }
    ensures no_read { IfErr result (λ stop. is_read_stop stop ≡ false) }
{
    match read_line(alloc, monitor.deed(), line.number, line.bytes.bytes()) {
        Ok(entry) => reply_to(alloc, monitor, line.number, entry, steps),
        Err(why) => Err(Stop::from(why)),
    }
}

/// Why the log goes no further after so many lines.
fn stop_at(alloc: Global, lines: u64, fault: LineFault) -> Stop
    requires { lines ≤ 2 ^ 32 }
    ensures { result ≡ stop_at lines fault }
{
    match fault {
        LineFault::ReadFault => Stop::ReadFault,
        LineFault::TooLong => refused(alloc, lines + 1, FaultName::TooLong),
        LineFault::TooManyLines => refused(alloc, lines + 1, FaultName::TooManyLines),
        LineFault::Memory => Stop::Memory,
    }
}

/// What is answered to the next line of the input, or none at its end.
pub(crate) fn reply_next<S: Source, L: Ledger>(
    alloc: Global,
    log: &mut Log,
    reader: &mut LineReader,
    input: &mut S,
    steps: &mut Steps<L>,
) -> Result<Option<Text>, Stop>
    requires live { IsTrue reader.old.live }
    requires counted { log.old.lines ≡ reader.old.given }
    requires few { log.old.lines ≤ 2 ^ 32 }
    ensures told { (deed : Deed) (rest : List ℕ) (noted : List Told) → S.left input.old ≡ Some rest
        → (IsTrue reader.old.ended → rest ≡ []) → Follows log.old.monitor deed noted
        → RepliesNext deed noted log.new.monitor reader.old reader.new rest (S.left input.new) result }
    ensures cause { CauseOf is_read_stop (S.faults input.old) (S.faults input.new) result }
    ensures goes { GoesOn reader.old reader.new log.new.lines result }
{
    let line = match reader.next(input) {
        Ok(Some(line)) => line,
        Ok(None) => return Ok(None),
        Err(fault) => return Err(stop_at(alloc, log.lines, fault)),
    };
    log.lines = line.number;
    match reply_line(alloc, &mut log.monitor, &line, steps) {
        Ok(text) => Ok(Some(text)),
        Err(stop) => Err(stop),
    }
}
