use crate::{DomainTree, ObligTree, PowerTree};
use sy_base::{List, Place, TimeUnit};
use sy_lex::Written;
use sy_tree::{PropTree, RhsTree};

/// A specification.
#[derive(Debug, Drop)]
pub struct SpecTree {
    pub domain: DomainTree,
    pub contract: ContractTree,
}

/// The contract part. A section without lines and one that is left out are the same.
#[derive(Debug, Drop)]
pub struct ContractTree {
    /// Where the word `Contract` stands that begins it.
    pub place: Place,
    pub name: Written,
    pub parameters: List<ParamTree>,
    pub unit: UnitTree,
    pub declarations: List<DeclTree>,
    pub preconditions: List<PropTree>,
    pub postconditions: List<PropTree>,
    pub obligations: List<ObligTree>,
    pub surviving: List<ObligTree>,
    pub powers: List<PowerTree>,
    pub constraints: List<PropTree>,
}

/// The unit in which the contract counts time.
#[derive(Debug, Drop)]
pub struct UnitTree {
    pub unit: TimeUnit,
    pub place: Place,
}

/// A parameter.
#[derive(Debug, Drop)]
pub struct ParamTree {
    pub name: Written,
    pub type_name: Written,
}

/// A declaration.
#[derive(Debug, Drop)]
pub struct DeclTree {
    pub name: Written,
    pub type_name: Written,
    /// What its attributes are given: nothing where `with` is left out.
    pub gives: List<GiveTree>,
}

/// What a declaration gives to an attribute.
#[derive(Debug, Drop)]
pub struct GiveTree {
    pub name: Written,
    pub value: RhsTree,
}
