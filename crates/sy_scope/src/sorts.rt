ghost use Rattle.std.specs.Prelude.{◌≡◌};
ghost use Rattle.sy_scope.specs.Sorts as sorts;

use crate::Scope;
use sy_domain::Sort;
use sy_tree::{FactorTree, RhsTree, SingleTree, SumTree, TermTree};

/// What a further part of a sum adds or takes away.
pub fn summand(sum: &SumTree) -> &FactorTree
    ensures { result.now ≡ sorts.summand sum.now }
{
    match sum {
        SumTree::Plus(factor) | SumTree::Minus(factor) => factor,
    }
}

/// The sort of a part of a product, where so many first declarations may be named.
pub fn single_sort(scope: &Scope, visible: usize, single: &SingleTree) -> Option<Sort>
    ensures { result ≡ sorts.single_sort scope.now visible single.now }
{
    match single {
        SingleTree::Number(_) | SingleTree::Negative(_, _) => Some(Sort::Number),
        SingleTree::Str(_) => Some(Sort::Text),
        SingleTree::Date(_) => Some(Sort::Date),
        SingleTree::Path(path) => scope.path(visible, path),
    }
}

/// The sort of a product.
pub fn factor_sort(scope: &Scope, visible: usize, factor: &FactorTree) -> Option<Sort>
    ensures { result ≡ sorts.factor_sort scope.now visible factor.now }
{
    match factor.others.items() {
        [] => single_sort(scope, visible, &factor.first),
        [_, ..] => Some(Sort::Number),
    }
}

/// The sort of a sum.
pub fn term_sort(scope: &Scope, visible: usize, term: &TermTree) -> Option<Sort>
    ensures { result ≡ sorts.term_sort scope.now visible term.now }
{
    match term.others.items() {
        [] => factor_sort(scope, visible, &term.first),
        [_, ..] => Some(Sort::Number),
    }
}

/// The sort of the right side of a comparison, and of what an attribute is given.
pub fn rhs_sort(scope: &Scope, visible: usize, rhs: &RhsTree) -> Option<Sort>
    ensures { result ≡ sorts.rhs_sort scope.now visible rhs.now }
{
    match rhs {
        RhsTree::Term(term) => term_sort(scope, visible, term),
        RhsTree::Const(_, _) => Some(Sort::Boolean),
    }
}
