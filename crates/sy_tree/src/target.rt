use sy_base::Place;
use sy_lex::Written;

/// What an act, an internal event or a situation is about.
#[derive(Debug, Drop)]
pub enum TargetTree {
    /// A position.
    Named(Written),
    /// The word `contract`.
    Contract(Place),
}
