/// The kinds of internal event. They stand here in the order in which those of one point count: a
/// target's state after the point is the one that its last kind gives.
#[derive(Clone, Copy, Debug, PartialEq, Eq)]
pub enum Kind {
    /// A power was exerted.
    Exerted,
    /// A position was created.
    Triggered,
    /// A position came into effect.
    Activated,
    Resumed,
    Suspended,
    /// An obligation was kept.
    Fulfilled,
    /// An obligation was broken.
    Violated,
    /// A position's antecedent failed.
    Expired,
    Discharged,
    Terminated,
    /// The contract came to its good end.
    Completed,
}
