ghost use Rattle.std.specs.Prelude.{◌≡◌, ◌++◌, IfOk, OnOk};
ghost use Rattle.sy_types.specs.WrongTypes as wrong;

use crate::attributes::check_types;
use crate::conditions::check_conditions;
use crate::declarations::{check_declarations, check_parameters};
use crate::phrases::check_phrases;
use crate::positions::check_positions;
use std::alloc::Global;
use sy_base::{List, Memory};
use sy_domain::Failure;
use sy_scope::Scope;
use sy_spec::SpecTree;

/// Finds what is wrong with the types, the parameters and the declarations.
fn check_things(
    alloc: Global,
    scope: &Scope,
    tree: &SpecTree,
    out: &mut List<Failure>,
) -> Result<(), Memory>
    ensures { OnOk result (out.new ≡ out.old ++ wrong.wrong_things scope.now tree.now) }
{
    check_types(alloc, scope, tree.domain.types.items(), out)?;
    check_parameters(alloc, scope, tree.contract.parameters.items(), out)?;
    check_declarations(alloc, scope, tree.contract.declarations.items(), out)
}

/// Where phrases of a specification break the rules of types, in no order of places.
///
/// # Errors
///
/// Memory, where there is none left.
pub fn wrong_types(alloc: Global, scope: &Scope, tree: &SpecTree) -> Result<List<Failure>, Memory>
    ensures { IfOk result (λ found. found ≡ wrong.wrong_types scope.now tree.now) }
{
    let contract = &tree.contract;
    let visible = scope.declarations().len();
    let mut out = List::new(alloc);
    check_things(alloc, scope, tree, &mut out)?;
    check_conditions(alloc, contract, &mut out)?;
    check_positions(alloc, scope, visible, contract, &mut out)?;
    check_phrases(alloc, scope, visible, contract, &mut out)?;
    Ok(out)
}
