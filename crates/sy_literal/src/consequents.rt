ghost use Rattle.std.specs.Prelude.{◌≡◌, ◌++◌, map, IfOk, OnOk};
ghost use Rattle.std.specs.List.{flat_map};
ghost use Rattle.sy_literal.specs.Consequents.{consequent_holds, each_holds, situations};

use std::alloc::Global;
use sy_base::{List, Memory};
use sy_domain::Failure;
use sy_spec::{ObligTree, SpecTree};
use sy_tree::PropTree;

/// Puts each `holds` of some propositions behind the others.
#[cycle(holding)]
fn find_each(alloc: Global, parts: &[PropTree], out: &mut List<Failure>) -> Result<(), Memory>
    ensures { OnOk result (out.new ≡ out.old ++ flat_map (λ part. part) (map each_holds parts.now)) }
{
    'part: for part in parts {
        find_holds(alloc, part, out)?;
    }
    Ok(())
}

/// Puts each `holds` of a proposition behind the others.
#[cycle(holding)]
fn find_holds(alloc: Global, tree: &PropTree, out: &mut List<Failure>) -> Result<(), Memory>
    ensures { OnOk result (out.new ≡ out.old ++ each_holds tree.now) }
{
    match tree {
        PropTree::Not(part, _) => find_holds(alloc, part.get(), out),
        PropTree::All(parts, _) => find_each(alloc, parts.as_slice(), out),
        PropTree::Any(parts, _) => find_each(alloc, parts.as_slice(), out),
        PropTree::Holds(_, first) => {
            out.push(Failure::at(alloc, &first.token)?)?;
            Ok(())
        }
        _ => Ok(()),
    }
}

/// Puts each `holds` of the consequents of obligations behind the others.
fn find_in_obligations(
    alloc: Global,
    obligations: &[ObligTree],
    out: &mut List<Failure>,
) -> Result<(), Memory>
    ensures { OnOk result (out.new ≡ out.old ++ flat_map consequent_holds obligations.now) }
{
    'obligation: for obligation in obligations {
        find_holds(alloc, &obligation.consequent, out)?;
    }
    Ok(())
}

/// Each `holds` of the consequents of a specification's obligations, surviving ones too.
pub fn situations_in_consequents(alloc: Global, tree: &SpecTree) -> Result<List<Failure>, Memory>
    ensures { IfOk result (λ found. found ≡ situations tree.now) }
{
    let mut out = List::new(alloc);
    find_in_obligations(alloc, tree.contract.obligations.items(), &mut out)?;
    find_in_obligations(alloc, tree.contract.surviving.items(), &mut out)?;
    Ok(out)
}
