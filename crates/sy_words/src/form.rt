/// What sort of position it is.
#[derive(Clone, Copy, Debug, PartialEq, Eq)]
pub enum Form {
    Obligation,
    /// An obligation that heeds no state of the contract.
    Surviving,
    Power,
}
