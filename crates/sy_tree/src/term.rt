use sy_base::{List, Place};
use sy_lex::Written;

/// What may stand on the right of a comparison, and what an attribute may be given.
#[derive(Debug, Drop)]
pub enum RhsTree {
    Term(TermTree),
    /// `true` or `false`.
    Const(bool, Place),
}

/// A sum: a factor, and those that are added to it or taken from it.
#[derive(Debug, Drop)]
pub struct TermTree {
    pub first: FactorTree,
    pub others: List<SumTree>,
}

/// A further part of a sum.
#[derive(Debug, Drop)]
pub enum SumTree {
    Plus(FactorTree),
    Minus(FactorTree),
}

/// A product.
#[derive(Debug, Drop)]
pub struct FactorTree {
    pub first: SingleTree,
    pub others: List<SingleTree>,
}

/// A part of a product.
#[derive(Debug, Drop)]
pub enum SingleTree {
    Number(Written),
    /// Where its `-` stands, and its number.
    Negative(Place, Written),
    Str(Written),
    Date(Written),
    Path(PathTree),
}

/// A name, and at most two attributes behind it.
#[derive(Debug, Drop)]
pub enum PathTree {
    Name(Written),
    /// `x.a`.
    Attribute(Written, Written),
    /// `x.a.b`.
    Inner(Written, Written, Written),
}
