use sy_base::{List, Place};
use sy_lex::Written;

/// The domain part: the types of the things that a contract speaks of.
#[derive(Debug, Drop)]
pub struct DomainTree {
    pub name: Written,
    pub types: List<TypeTree>,
}

/// A type. Whether `isA` or `isAn` was written isn't kept.
#[derive(Debug, Drop)]
pub enum TypeTree {
    /// Its name, and its constants.
    Enumeration(Written, EnumTree),
    /// Its name, its base, and its own attributes: none where `with` is left out.
    Derived(Written, BaseTree, List<AttrTree>),
}

/// The constants of an enumeration, one at least.
#[derive(Debug, Drop)]
pub struct EnumTree {
    pub constants: List<Written>,
}

/// What a type is derived from.
#[derive(Debug, Drop)]
pub enum BaseTree {
    Role(Place),
    Asset(Place),
    Event(Place),
    /// Another type.
    Named(Written),
}

/// An attribute of a type.
#[derive(Debug, Drop)]
pub struct AttrTree {
    /// Where `Env` stands, if it does.
    pub env: Option<Place>,
    pub name: Written,
    pub type_name: Written,
}
