ghost use Rattle.std.specs.Prelude.{◌≡◌, ◌≢◌, IsTrue};
ghost use Rattle.sy_words.specs.declared.kind.Kind.{Kind};
ghost use Rattle.sy_machines.specs.Fired.{has};

use sy_words::Kind;

/// Which kinds of internal event have happened to one target at a point.
#[derive(Clone, Copy, Debug, PartialEq, Eq)]
pub struct Fired {
    /// The power was exerted.
    pub exerted: bool,
    /// The position was created.
    pub triggered: bool,
    /// The position came into effect.
    pub activated: bool,
    /// It was resumed.
    pub resumed: bool,
    /// It was suspended.
    pub suspended: bool,
    /// The obligation was kept.
    pub fulfilled: bool,
    /// The obligation was broken.
    pub violated: bool,
    /// The position's antecedent failed.
    pub expired: bool,
    /// The obligation was discharged.
    pub discharged: bool,
    /// It was terminated.
    pub terminated: bool,
    /// The contract came to its good end.
    pub completed: bool,
}

impl Fired {
    /// No kind has happened.
    pub const NONE: Fired = Fired {
        exerted: false,
        triggered: false,
        activated: false,
        resumed: false,
        suspended: false,
        fulfilled: false,
        violated: false,
        expired: false,
        discharged: false,
        terminated: false,
        completed: false,
    };

    /// Whether the kind has happened.
    pub fn has(&self, kind: Kind) -> bool
        ensures { result ≡ has self.now kind }
    {
        match kind {
            Kind::Exerted => self.exerted,
            Kind::Triggered => self.triggered,
            Kind::Activated => self.activated,
            Kind::Resumed => self.resumed,
            Kind::Suspended => self.suspended,
            Kind::Fulfilled => self.fulfilled,
            Kind::Violated => self.violated,
            Kind::Expired => self.expired,
            Kind::Discharged => self.discharged,
            Kind::Terminated => self.terminated,
            Kind::Completed => self.completed,
        }
    }

    /// From now on the kind has happened too.
    pub fn set(&mut self, kind: Kind)
        ensures set { IsTrue (has self.new kind) }
        ensures others { (other : Kind) → other ≢ kind → has self.new other ≡ has self.old other }
    {
        match kind {
            Kind::Exerted => self.exerted = true,
            Kind::Triggered => self.triggered = true,
            Kind::Activated => self.activated = true,
            Kind::Resumed => self.resumed = true,
            Kind::Suspended => self.suspended = true,
            Kind::Fulfilled => self.fulfilled = true,
            Kind::Violated => self.violated = true,
            Kind::Expired => self.expired = true,
            Kind::Discharged => self.discharged = true,
            Kind::Terminated => self.terminated = true,
            Kind::Completed => self.completed = true,
        }
    }
}
