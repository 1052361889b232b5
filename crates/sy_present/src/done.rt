ghost use Rattle.std.specs.Prelude.{◌≡◌, ◌||◌, ◌==◌, false};
ghost use Rattle.sy_words.specs.declared.verb.Verb.{Verb};
ghost use Rattle.sy_core.specs.Conditions.{verb_number};
ghost use Rattle.sy_present.specs.Machine.Told.{has_done};

use sy_words::Verb;

/// What the powers that are exerted at the present point do to one target.
#[derive(Clone, Copy, Debug)]
pub(crate) struct Done {
    pub suspends: bool,
    pub resumes: bool,
    pub discharges: bool,
    pub terminates: bool,
    pub triggers: bool,
}

impl Done {
    /// No power does anything to it.
    pub const NONE: Done = Done {
        suspends: false,
        resumes: false,
        discharges: false,
        terminates: false,
        triggers: false,
    };

    /// From now on a power does this to it too.
    pub fn add(&mut self, verb: Verb)
        ensures { (other : Verb) → has_done self.new other
            ≡ (has_done self.old other || (verb_number verb == verb_number other)) }
    {
        match verb {
            Verb::Suspends => self.suspends = true,
            Verb::Resumes => self.resumes = true,
            Verb::Discharges => self.discharges = true,
            Verb::Terminates => self.terminates = true,
            Verb::Triggers => self.triggers = true,
        }
    }
}
