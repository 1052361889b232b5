ghost use Rattle.std.specs.Prelude.{◌≡◌};
ghost use Rattle.sy_core.specs.Chronicle.{first_state};
ghost use Rattle.sy_atoms.specs.Machine.Kept.{said_of, look_at};

use sy_core::{Situation, StateOf, Target, is_same_state};

/// What is kept of a situation: whether it holds at the present point, and at the next one.
#[derive(Clone, Copy, Debug)]
pub struct Look {
    pub here: bool,
    pub later: bool,
}

/// Whether the situation holds of this state of its target.
pub(crate) fn is_said(situation: Situation, state: StateOf) -> bool
    ensures { result ≡ said_of situation state }
{
    let same = is_same_state(state, situation.state);
    if situation.equal { same } else { !same }
}

/// The state of a target at start.
fn first_state(target: Target) -> StateOf
    ensures { result ≡ first_state target }
{
    match target {
        Target::Contract => StateOf::InEffect,
        Target::Position(_) => StateOf::Null,
    }
}

/// What is kept of a situation at start.
pub fn first_look(situation: Situation) -> Look
    ensures { result ≡ look_at situation first_state first_state }
{
    let holds = is_said(situation, first_state(situation.target));
    Look {
        here: holds,
        later: holds,
    }
}

impl Look {
    ghost use Rattle.sy_atoms.specs.Machine.Kept.{set_look, passed_look};

    /// Whether the situation holds from the next point on, if that is told.
    pub fn set(&mut self, holds: Option<bool>)
        ensures { self.new ≡ set_look holds self.old }
    {
        if let Some(later) = holds {
            self.later = later;
        }
    }

    /// The present point goes by.
    pub fn pass(&mut self)
        ensures { self.new ≡ passed_look self.old }
    {
        self.here = self.later;
    }
}
