use sy_base::Place;
use sy_lex::Written;
use sy_tree::{PropTree, TargetTree};
use sy_words::Verb;

/// An obligation, or a surviving one.
#[derive(Debug, Drop)]
pub struct ObligTree {
    pub name: Written,
    /// None where it is left out.
    pub trigger: Option<PropTree>,
    pub debtor: Written,
    pub creditor: Written,
    pub antecedent: PropTree,
    pub consequent: PropTree,
}

/// A power.
#[derive(Debug, Drop)]
pub struct PowerTree {
    pub name: Written,
    /// None where it is left out.
    pub trigger: Option<PropTree>,
    pub holder: Written,
    pub other_party: Written,
    pub antecedent: PropTree,
    pub act: ActTree,
}

/// What a power does.
#[derive(Debug, Drop)]
pub struct ActTree {
    pub verb: VerbTree,
    pub target: TargetTree,
}

/// The verb of an act.
#[derive(Debug, Drop)]
pub struct VerbTree {
    pub verb: Verb,
    pub place: Place,
}
