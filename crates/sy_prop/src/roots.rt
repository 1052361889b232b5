/// A place of a deed at which a proposition stands.
#[derive(Clone, Copy, Debug)]
pub enum Root {
    /// The trigger of the position with this number.
    Trigger(u32),
    /// The antecedent of the position with this number.
    Antecedent(u32),
    /// What the obligation with this number demands.
    Consequent(u32),
    /// The postcondition with this number.
    Post(u32),
}

/// The nodes of a position's propositions.
#[derive(Clone, Copy, Debug)]
pub(crate) struct PositionRoots {
    pub trigger: usize,
    pub antecedent: usize,
    /// The node of the consequent; of a power, that of the antecedent.
    pub consequent: usize,
}
