ghost use Rattle.std.specs.Prelude.{◌≡◌, ◌++◌, map, get_or, is_some, None, OnOk, IfOk};
ghost use Rattle.std.specs.List.{flat_map, enumerate_from};
ghost use Rattle.sy_domain.specs.Chains as chains;
ghost use Rattle.sy_domain.specs.Chains.{base_number, cyclic_types};
ghost use Rattle.sy_domain.specs.Machine.Marked.{marked_name};

use crate::failure::fail_unless;
use crate::{Failure, Meaning, Names, Sort};
use std::alloc::Global;
use sy_base::{List, Memory};
use sy_chains::find_cycles;
use sy_lex::Written;
use sy_spec::{BaseTree, SpecTree, TypeTree};

/// The number of the type that a type is derived from.
fn base_of(names: &Names, tree: &TypeTree) -> Option<usize>
    ensures { result ≡ base_number names.now.table tree.now }
{
    match tree {
        TypeTree::Derived(_, BaseTree::Named(name), _) => match names.meaning(&name.text) {
            Some(Meaning::Type(Sort::Declared(number))) => Some(number),
            _ => None,
        },
        _ => None,
    }
}

/// The numbers of the types that types are derived from.
pub(crate) fn all_bases(
    alloc: Global,
    names: &Names,
    types: &[TypeTree],
) -> Result<List<Option<usize>>, Memory>
    ensures { IfOk result (λ bases. bases ≡ map (base_number names.now.table) types.now) }
{
    let mut bases = List::new(alloc);
    'tree: for tree in types {
        bases.push(base_of(names, tree))?;
    }
    Ok(bases)
}

fn type_name(tree: &TypeTree) -> &Written
    ensures { result.now ≡ chains.type_name tree.now }
{
    match tree {
        TypeTree::Enumeration(name, _) => name,
        TypeTree::Derived(name, _, _) => name,
    }
}

/// Whether a type has a mark.
fn has_mark(marks: &[Option<usize>], number: usize) -> bool
    ensures { result ≡ is_some (get_or marks.now number None) }
{
    matches!(marks.get(number), Some(Some(_)))
}

fn check_type(
    alloc: Global,
    cyclic: &[Option<usize>],
    number: usize,
    tree: &TypeTree,
    out: &mut List<Failure>,
) -> Result<(), Memory>
    ensures { OnOk result (out.new ≡ out.old ++ marked_name cyclic.now (number, tree.now)) }
{
    fail_unless(alloc, !has_mark(cyclic, number), type_name(tree), out)
}

fn check_all(
    alloc: Global,
    cyclic: &[Option<usize>],
    types: &[TypeTree],
    out: &mut List<Failure>,
) -> Result<(), Memory>
    ensures { OnOk result (out.new ≡ out.old ++ flat_map (marked_name cyclic.now) (enumerate_from 0 types.now)) }
{
    'tree: for (i, tree) in types.iter().enumerate() {
        check_type(alloc, cyclic, i, tree, out)?;
    }
    Ok(())
}

/// The types on a cycle of derivations.
pub(crate) fn find_cyclic(
    alloc: Global,
    names: &Names,
    tree: &SpecTree,
) -> Result<List<Failure>, Memory>
    ensures { IfOk result (λ found. found ≡ cyclic_types names.now.table tree.now.domain.types) }
{
    let types = tree.domain.types.items();
    let bases = all_bases(alloc, names, types)?;
    let cyclic = find_cycles(alloc, bases.items())?;
    let mut out = List::new(alloc);
    check_all(alloc, &cyclic, types, &mut out)?;
    Ok(out)
}
