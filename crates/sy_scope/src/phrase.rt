ghost use Rattle.std.specs.Prelude.{◌≡◌, IfOk};
ghost use Rattle.sy_scope.specs.Tokens as phrases;
ghost use Rattle.sy_domain.specs.Failures.{at};

use std::alloc::Global;
use sy_base::{Memory, Place, Text};
use sy_domain::Failure;
use sy_lex::Written;
use sy_tree::{FactorTree, PathTree, RhsTree, SingleTree, TermTree};

/// The first token of a path.
pub fn path_token(path: &PathTree) -> &Written
    ensures { result.now ≡ phrases.path_token path.now }
{
    match path {
        PathTree::Name(name) | PathTree::Attribute(name, _) | PathTree::Inner(name, _, _) => name,
    }
}

/// The failure at a word or sign that stands there.
pub fn fail_at(alloc: Global, text: &[u8], place: Place) -> Result<Failure, Memory>
    ensures { IfOk result (λ failure. failure ≡ at (phrases.written text.now place)) }
{
    Ok(Failure {
        place: Some(place),
        words: Text::new(alloc, text)?,
    })
}

/// The failure at the first token of a part of a product.
pub fn fail_at_single(alloc: Global, single: &SingleTree) -> Result<Failure, Memory>
    ensures { IfOk result (λ failure. failure ≡ at (phrases.single_token single.now)) }
{
    match single {
        SingleTree::Number(token) | SingleTree::Str(token) | SingleTree::Date(token) => {
            Failure::at(alloc, token)
        }
        SingleTree::Negative(place, _) => fail_at(alloc, b"-", *place),
        SingleTree::Path(path) => Failure::at(alloc, path_token(path)),
    }
}

/// The failure at the first token of a product.
pub fn fail_at_factor(alloc: Global, factor: &FactorTree) -> Result<Failure, Memory>
    ensures { IfOk result (λ failure. failure ≡ at (phrases.factor_token factor.now)) }
{
    fail_at_single(alloc, &factor.first)
}

/// The failure at the first token of a sum.
pub fn fail_at_term(alloc: Global, term: &TermTree) -> Result<Failure, Memory>
    ensures { IfOk result (λ failure. failure ≡ at (phrases.term_token term.now)) }
{
    fail_at_factor(alloc, &term.first)
}
