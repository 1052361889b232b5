ghost use Rattle.std.specs.Prelude.{◌≡◌, ℕ, List};
ghost use Rattle.sy_run.specs.Commands.{LendsTo, command_of};
ghost use Rattle.sy_run.specs.Machine.Stream.{IsUsageStatus, WriteCaused};
ghost use Rattle.sy_run.specs.Outcomes as outcomes;
ghost use Rattle.sy_run.specs.Run.{Ends, IsRun};

use crate::compile::compile;
use crate::monitor::monitor;
use crate::status::Status;
use std::alloc::Global;
use std::sync::ledger::Ledger;
use sy_base::Text;
use sy_outside::{Files, Sink, Source, Steps, write_all};

/// Writes the line that tells how the program is used.
fn usage<W: Sink>(out: &mut W) -> Status
    ensures ends { Ends (W.held out.old) (W.held out.new) outcomes.usage result }
    ensures cause { WriteCaused (W.faults out.old) (W.faults out.new) result }
    ensures status { IsUsageStatus result }
{
    let line =
        b"usage: symboleo compile SPEC | monitor SPEC BIND | check SPEC BIND PROPS BUDGET | certify SPEC BIND PROPS NAME BUDGET | verify SPEC BIND PROPS NAME | replay SPEC BIND PROPS NAME | make SEED COUNT\n";
    match write_all(out, line) {
        Ok(()) => Status::Usage,
        Err(_) => Status::WriteFault,
    }
}

/// Does what the words say, over the files, the input and the output that it is handed. There are
/// two commands so far, `compile SPEC` and `monitor SPEC BIND`; with any other words it writes how
/// it is used.
///
/// `steps` counts the points that are evaluated.
pub fn run<F: Files, S: Source, W: Sink, L: Ledger>(
    alloc: Global,
    words: &[Text],
    files: &mut F,
    input: &mut S,
    out: &mut W,
    steps: &mut Steps<L>,
) -> Status
    requires { LendsTo (F.lent files.old) (command_of words.now) }

    // A run of the command that the words give, from the world before to the world after it.
    ensures { IsRun (command_of words.now)
        (record { file = F.told files.old; left = S.left input.old; held = W.held out.old; file_faults = F.faults files.old; input_faults = S.faults input.old; output_faults = W.faults out.old })
        (record { file = F.told files.new; left = S.left input.new; held = W.held out.new; file_faults = F.faults files.new; input_faults = S.faults input.new; output_faults = W.faults out.new }) result }
{
    match words {
        [form, spec] if form.bytes() == b"compile".as_slice() => compile(alloc, spec, files, out),
        [form, spec, bind] if form.bytes() == b"monitor".as_slice() => {
            monitor(alloc, spec, bind, files, input, out, steps)
        }
        _ => usage(out),
    }
}
