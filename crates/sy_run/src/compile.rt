ghost use Rattle.std.specs.Prelude.{◌≡◌, ◌++◌, ℕ, List, IsTrue, IfOk, Ok};
ghost use Rattle.std.specs.declared.option.Option.{Option};
ghost use Rattle.sy_print.specs.CanonicalText.{canonical_text};
ghost use Rattle.sy_typing.specs.Plans.{order_text};
ghost use Rattle.sy_run.specs.Commands as command;
ghost use Rattle.sy_run.specs.Machine.Stream.{IsWritingStatus, WriteCaused};
ghost use Rattle.sy_run.specs.Outcomes.{compiled};
ghost use Rattle.sy_run.specs.Run.{Ends, IsRun};

use crate::files::read_plan;
use crate::status::Status;
use crate::stop::end;
use std::alloc::Global;
use sy_base::{Memory, Text};
use sy_outside::{Files, Sink, write_all};
use sy_print::print;
use sy_typing::Plan;

/// The canonical text of a specification, and the lines of its order behind it.
fn compiled_text(alloc: Global, plan: &Plan) -> Result<Text, Memory>
    ensures { IfOk result (λ text. text ≡ canonical_text plan.now ++ order_text plan.now) }
{
    let canonical = print(alloc, plan.tree())?;
    let order = plan.order_text(alloc)?;
    let mut out = Vec::from_slice(alloc, canonical.bytes())?;
    out.extend_from_slice(order.bytes())?;
    Ok(Text::from(out))
}

/// Writes the canonical text of a specification, and its order.
fn write_compiled<W: Sink>(alloc: Global, plan: &Plan, out: &mut W) -> Status
    ensures ends { Ends (W.held out.old) (W.held out.new) (compiled (Ok plan.now)) result }
    ensures cause { WriteCaused (W.faults out.old) (W.faults out.new) result }
    ensures status { IsWritingStatus result }
{
    let Ok(text) = compiled_text(alloc, plan) else {
        return Status::Memory;
    };
    match write_all(out, text.bytes()) {
        Ok(()) => Status::Done,
        Err(_) => Status::WriteFault,
    }
}

/// The command `compile SPEC`: reads a specification, checks it, and writes its canonical text and
/// the order in which its nodes are evaluated. It never sees the input, so whatever that is, it
/// stays.
pub(crate) fn compile<F: Files, W: Sink>(
    alloc: Global,
    spec: &Text,
    files: &mut F,
    out: &mut W,
) -> Status
    requires { IsTrue (F.lent files.old spec.now) }
    ensures { (left : Option (List ℕ)) (faults : ℕ) → IsRun (command.Compile spec.now)
        (record { file = F.told files.old; left = left; held = W.held out.old; file_faults = F.faults files.old; input_faults = faults; output_faults = W.faults out.old })
        (record { file = F.told files.new; left = left; held = W.held out.new; file_faults = F.faults files.new; input_faults = faults; output_faults = W.faults out.new }) result }
{
    match read_plan(alloc, files, spec) {
        Ok(plan) => write_compiled(alloc, &plan, out),
        Err(why) => end(alloc, &why, out),
    }
}
