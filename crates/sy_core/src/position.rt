use crate::kind::Target;
use crate::proposition::Prop;
use sy_base::Text;
use sy_words::{Form, Verb};

/// A power's act: what it does, and to what.
#[derive(Clone, Copy, Debug, PartialEq, Eq)]
pub struct Act {
    pub verb: Verb,
    pub target: Target,
}

/// What a position comes to: what an obligation demands, or what a power does.
#[derive(Debug, Drop)]
pub enum Goal {
    Duty(Prop),
    Act(Act),
}

/// An obligation or a power.
#[derive(Debug, Drop)]
pub struct Position {
    pub name: Text,
    pub form: Form,
    /// Who owes the obligation, or holds the power.
    pub first: Text,
    /// To whom it is owed, or against whom it is held.
    pub second: Text,
    pub trigger: Prop,
    pub antecedent: Prop,
    /// A duty for an obligation, and an act for a power.
    pub goal: Goal,
}
