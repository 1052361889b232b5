use sy_base::{List, Place};
use sy_lex::Written;

/// A binding: the contract's start, and what its parameters are bound to.
#[derive(Debug, Drop)]
pub struct BindTree {
    /// A date.
    pub start: Written,
    pub parameters: List<GivenTree>,
}

/// What a parameter is bound to.
#[derive(Debug, Drop)]
pub struct GivenTree {
    pub name: Written,
    pub bound: BoundTree,
}

/// A plain value, or values of attributes.
#[derive(Debug, Drop)]
pub enum BoundTree {
    Value(ValueTree),
    /// Where its `{` stands, and what the attributes have.
    Attributes(Place, List<FieldTree>),
}

/// The value of an attribute.
#[derive(Debug, Drop)]
pub struct FieldTree {
    pub name: Written,
    pub value: ValueTree,
}

/// A value.
#[derive(Debug, Drop)]
pub enum ValueTree {
    Number(Written),
    /// Where its `-` stands, and its number.
    Negative(Place, Written),
    Str(Written),
    Date(Written),
    /// `true` or `false`.
    Const(bool, Place),
    /// A constant of an enumeration.
    Name(Written),
}
