ghost use Rattle.std.specs.Prelude.{◌≡◌};
ghost use Rattle.std.specs.Option.{is_some};
ghost use Rattle.sy_run.specs.Machine.Stream.{StopsWith, WriteCaused};
ghost use Rattle.sy_run.specs.Machine.Stopping.{stop_of};
ghost use Rattle.sy_run.specs.declared.stop.Stop.TheVariants as stop;
ghost use Rattle.sy_run.specs.declared.stop.Stop.TheVariants.{Memory as OutOfMemory};

use crate::status::Status;
use std::alloc::Global;
use sy_base::{Memory, Refusal, Refused};
use sy_outside::{Sink, write_all};
use sy_report::refusal_text;

/// Why a run goes no further.
#[derive(Debug, Drop)]
pub(crate) enum Stop {
    /// A file could not be read.
    ReadFault,
    /// A text is refused.
    Refused(Refusal),
    Memory,
}

impl From<Refused> for Stop {
    ghost from_gives = { λ why stop. stop ≡ stop_of why };

    fn from(why: Refused) -> Stop {
        match why {
            Refused::Refusal(refusal) => Stop::Refused(refusal),
            Refused::Memory => Stop::Memory,
        }
    }
}

impl From<Memory> for Stop {
    ghost from_gives = { λ _ e. e ≡ OutOfMemory };

    fn from(_: Memory) -> Stop {
        Stop::Memory
    }
}

/// Writes the line of a refusal.
fn refuse<W: Sink>(alloc: Global, refusal: &Refusal, out: &mut W) -> Status
    ensures ends { StopsWith (W.held out.old) (W.held out.new) (stop.Refused refusal.now) result }
    ensures cause { WriteCaused (W.faults out.old) (W.faults out.new) result }
{
    let Ok(line) = refusal_text(alloc, refusal) else {
        return Status::Memory;
    };
    match write_all(out, line.bytes()) {
        Ok(()) => Status::Refused,
        Err(_) => Status::WriteFault,
    }
}

/// Ends a run for this reason. A refusal is written, and nothing else.
pub(crate) fn end<W: Sink>(alloc: Global, why: &Stop, out: &mut W) -> Status
    ensures ends { StopsWith (W.held out.old) (W.held out.new) why.now result }
    ensures cause { WriteCaused (W.faults out.old) (W.faults out.new) result }
{
    match why {
        Stop::ReadFault => Status::ReadFault,
        Stop::Refused(refusal) => refuse(alloc, refusal, out),
        Stop::Memory => Status::Memory,
    }
}
