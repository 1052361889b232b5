ghost use Rattle.std.specs.Prelude.{◌≡◌, ℕ, Bool, List};
ghost use Rattle.sy_core.specs.declared.deed.Deed.{Deed};
ghost use Rattle.sy_run.specs.Commands.{Command as ACommand};
ghost use Rattle.sy_run.specs.Outcomes.{IsOutcome, Outcome as AnOutcome};
ghost use Rattle.sy_run.specs.Output.{IsOutputOf};
ghost use Rattle.sy_run.specs.Run.{KnowsFor};
ghost use Rattle.sy_run.specs.World.{World as AWorld};

/// What the lines of a log write under a deed, and no program: there is one output for each log.
pub fn logs_have_one_output()
    ensures some { (deed : Deed) (lines : List (List ℕ)) → (text : List ℕ) × (is_refused : Bool) × IsOutputOf deed lines text is_refused }
    ensures one { (deed : Deed) (lines : List (List ℕ)) (text other : List ℕ) (is_refused is_other_refused : Bool)
        → IsOutputOf deed lines text is_refused → IsOutputOf deed lines other is_other_refused
        → (text ≡ other) × (is_refused ≡ is_other_refused) }
{}

/// A command has one outcome where the bytes are known of all that it reads, and elsewhere none. So
/// what `run` says of an outcome, it says of the one that there is.
pub fn commands_have_one_outcome()
    ensures some { (command : ACommand) (world : AWorld) → KnowsFor command world → (outcome : AnOutcome) × IsOutcome command world outcome }
    ensures known { (command : ACommand) (world : AWorld) (outcome : AnOutcome) → IsOutcome command world outcome → KnowsFor command world }
    ensures one { (command : ACommand) (world : AWorld) (outcome other : AnOutcome)
        → IsOutcome command world outcome → IsOutcome command world other → outcome ≡ other }
{}
