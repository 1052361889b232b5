ghost use Rattle.std.specs.Prelude.{◌≡◌, ◌++◌, fold, map, OnOk, IfOk};
ghost use Rattle.std.specs.List.{flat_map, enumerate_from, list_all, list_any};
ghost use Rattle.sy_chains.specs.Chains.{NoCycle};
ghost use Rattle.sy_domain.specs.Chains.{base_number};
ghost use Rattle.sy_domain.specs.Machine.Owners as owning;
ghost use Rattle.sy_domain.specs.Machine.Owners.{owners_of};
ghost use Rattle.sy_domain.specs.Attributes as attributes;
ghost use Rattle.sy_domain.specs.Attributes.{clash, clashes, clashing, given_twice};

use crate::chains::all_bases;
use crate::failure::fail_unless;
use crate::names::repeat_into;
use crate::{Failure, Names};
use indexmap::IndexMap;
use std::alloc::Global;
use sy_base::{List, Memory, Text};
use sy_chains::chain_above;
use sy_spec::{AttrTree, DeclTree, SpecTree, TypeTree};

pub(crate) fn own(tree: &TypeTree) -> &[AttrTree]
    ensures { result.now ≡ attributes.own tree.now }
{
    match tree {
        TypeTree::Enumeration(_, _) => &[],
        TypeTree::Derived(_, _, attributes) => attributes.items(),
    }
}

fn own_at(types: &[TypeTree], number: usize) -> &[AttrTree]
    ensures { result.now ≡ attributes.own_at types.now number }
{
    match types.get(number) {
        Some(tree) => own(tree),
        None => &[],
    }
}

/// Whether a type has an own attribute with a name.
fn owns(types: &[TypeTree], name: &Text, number: usize) -> bool
    ensures { result ≡ attributes.owns types.now name.now number }
{
    own_at(types, number)
        .iter()
        .any(|attribute| attribute.name.text == *name)
}

/// Whether one of some types does.
fn any_owns(types: &[TypeTree], name: &Text, numbers: &[usize]) -> bool
    ensures { result ≡ list_any (attributes.owns types.now name.now) numbers.now }
{
    numbers.iter().any(|number| owns(types, name, *number))
}

fn check_own(
    alloc: Global,
    types: &[TypeTree],
    above: &[usize],
    own: &[AttrTree],
    out: &mut List<Failure>,
) -> Result<(), Memory>
    ensures { OnOk result (out.new ≡ out.old ++ flat_map (clash types.now above.now) own.now) }
{
    'attribute: for attribute in own {
        let is_free = !any_owns(types, &attribute.name.text, above);
        fail_unless(alloc, is_free, &attribute.name, out)?;
    }
    Ok(())
}

/// The only type that owns a name, once one more type does. None where several do.
fn owner_with(owner: Option<Option<usize>>, number: usize) -> Option<usize>
    ensures { result ≡ owning.owner_with owner number }
{
    match owner {
        Some(Some(other)) if other == number => Some(number),
        Some(_) => None,
        None => Some(number),
    }
}

/// Adds a type that has some attributes to the owners of their names.
fn add_owner(
    alloc: Global,
    number: usize,
    own: &[AttrTree],
    owners: &mut IndexMap<Text, Option<usize>>,
) -> Result<(), Memory>
    ensures { OnOk result (owners.new.entries ≡ fold (owning.add_owner number) owners.old.entries own.now) }
{
    'attribute: for attribute in own {
        let name = &attribute.name.text;
        let owner = owner_with(owners.get(name).copied(), number);
        owners.insert(name.copy(alloc)?, owner)?;
    }
    Ok(())
}

/// The only type that owns each name of an attribute, or none where several do.
fn all_owners(alloc: Global, types: &[TypeTree]) -> Result<IndexMap<Text, Option<usize>>, Memory>
    ensures { IfOk result (λ owners. owners.entries ≡ owners_of types.now) }
{
    let mut owners = IndexMap::new(alloc);
    'tree: for (i, tree) in types.iter().enumerate() {
        add_owner(alloc, i, own(tree), &mut owners)?;
    }
    Ok(owners)
}

/// Whether a type alone owns an attribute's name.
fn is_only(owners: &IndexMap<Text, Option<usize>>, number: usize, attribute: &AttrTree) -> bool
    ensures { result ≡ owning.is_only owners.now.entries number attribute.now }
{
    match owners.get(&attribute.name.text).copied() {
        Some(Some(owner)) => owner == number,
        _ => false,
    }
}

/// Whether it does with each of some attributes.
fn are_only(owners: &IndexMap<Text, Option<usize>>, number: usize, own: &[AttrTree]) -> bool
    ensures { result ≡ list_all (owning.is_only owners.now.entries number) own.now }
{
    own.iter()
        .all(|attribute| is_only(owners, number, attribute))
}

fn check_type(
    alloc: Global,
    types: &[TypeTree],
    bases: &[Option<usize>],
    owners: &IndexMap<Text, Option<usize>>,
    number: usize,
    tree: &TypeTree,
    out: &mut List<Failure>,
) -> Result<(), Memory>
    requires none { NoCycle bases.now }
    requires owners { owners.now.entries ≡ owners_of types.now }
    ensures { OnOk result (out.new ≡ out.old ++ clashes types.now bases.now (number, tree.now)) }
{
    let own = own(tree);
    if are_only(owners, number, own) {
        return Ok(());
    }
    let above = chain_above(alloc, bases, number)?;
    check_own(alloc, types, above.items(), own, out)
}

fn check_types(
    alloc: Global,
    types: &[TypeTree],
    bases: &[Option<usize>],
    out: &mut List<Failure>,
) -> Result<(), Memory>
    requires { NoCycle bases.now }
    ensures { OnOk result (out.new ≡ out.old ++ flat_map (clashes types.now bases.now) (enumerate_from 0 types.now)) }
{
    let owners = all_owners(alloc, types)?;
    'tree: for (i, tree) in types.iter().enumerate() {
        check_type(alloc, types, bases, &owners, i, tree, out)?;
    }
    Ok(())
}

fn check_decls(alloc: Global, decls: &[DeclTree], out: &mut List<Failure>) -> Result<(), Memory>
    ensures { OnOk result (out.new ≡ out.old ++ flat_map given_twice decls.now) }
{
    'decl: for decl in decls {
        repeat_into(alloc, decl.gives.items(), out)?;
    }
    Ok(())
}

/// The attributes that have an inherited one's name, and those that a declaration gives twice.
pub(crate) fn find_clashing(
    alloc: Global,
    names: &Names,
    tree: &SpecTree,
) -> Result<List<Failure>, Memory>
    requires { NoCycle (map (base_number names.now.table) tree.now.domain.types) }
    ensures { IfOk result (λ found. found ≡ clashing names.now.table tree.now) }
{
    let types = tree.domain.types.items();
    let bases = all_bases(alloc, names, types)?;
    let mut out = List::new(alloc);
    check_types(alloc, types, bases.items(), &mut out)?;
    check_decls(alloc, tree.contract.declarations.items(), &mut out)?;
    Ok(out)
}
