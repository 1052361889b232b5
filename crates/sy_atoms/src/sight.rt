ghost use Rattle.std.specs.Prelude.{◌≡◌, ◌||◌, ◌&&◌};

/// What is kept of an event: whether it happened at a point gone by that counts, and whether it
/// happens at the present point.
#[derive(Clone, Copy, Debug)]
pub struct Sight {
    pub past: bool,
    pub here: bool,
}

impl Sight {
    ghost use Rattle.sy_atoms.specs.Machine.Kept.{noted_sight, passed_sight};

    /// The event happens now, if so told.
    pub fn note(&mut self, happens: bool)
        ensures { self.new ≡ noted_sight happens self.old }
    {
        if happens {
            self.here = true;
        }
    }

    /// The present point goes by, and counts if `inside`.
    pub fn pass(&mut self, inside: bool)
        ensures { self.new ≡ passed_sight inside self.old }
    {
        if self.here && inside {
            self.past = true;
        }
        self.here = false;
    }

    /// Whether the event happened at a point that counts, where the present one counts if `inside`.
    pub fn seen(&self, inside: bool) -> bool
        ensures { result ≡ (self.now.past || (self.now.here && inside)) }
    {
        self.past || self.here && inside
    }
}
