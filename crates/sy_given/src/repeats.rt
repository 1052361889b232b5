ghost use Rattle.std.specs.Prelude.{◌≡◌, ◌++◌, IfOk, OnOk};
ghost use Rattle.std.specs.List.{flat_map};
ghost use Rattle.sy_given.specs.BoundNames as names;
ghost use Rattle.sy_given.specs.BoundNames.{repeated_fields, repeated_names};
ghost use Rattle.sy_given.specs.Givens as givens;

use crate::named::repeat_into;
use std::alloc::Global;
use sy_base::{List, Memory};
use sy_binding::{BindTree, BoundTree, FieldTree, GivenTree};
use sy_domain::Failure;

/// What stands within the braces of a parameter, where there are any.
pub(crate) fn fields_of(bound: &BoundTree) -> &[FieldTree]
    ensures { result.now ≡ givens.fields_of bound.now }
{
    match bound {
        BoundTree::Value(_) => &[],
        BoundTree::Attributes(_, fields) => fields.items(),
    }
}

/// The names that are bound twice.
pub(crate) fn find_repeated_names(alloc: Global, tree: &BindTree) -> Result<List<Failure>, Memory>
    ensures { IfOk result (λ found. found ≡ repeated_names tree.now) }
{
    let mut out = List::new(alloc);
    repeat_into(alloc, tree.parameters.items(), &mut out)?;
    Ok(out)
}

/// The names that are bound twice within one pair of braces.
fn repeat_each(alloc: Global, givens: &[GivenTree], out: &mut List<Failure>) -> Result<(), Memory>
    ensures { OnOk result (out.new ≡ out.old ++ flat_map repeated_fields givens.now) }
{
    'given: for given in givens {
        repeat_into(alloc, fields_of(&given.bound), out)?;
    }
    Ok(())
}

/// The names that are bound twice within one pair of braces.
pub(crate) fn find_repeated_fields(alloc: Global, tree: &BindTree) -> Result<List<Failure>, Memory>
    ensures { IfOk result (λ found. found ≡ flat_map repeated_fields tree.now.parameters) }
{
    let mut out = List::new(alloc);
    repeat_each(alloc, tree.parameters.items(), &mut out)?;
    Ok(out)
}
