ghost use Rattle.std.specs.Prelude.{◌≡◌, ◌++◌, map, fold, length, option_and_then, slice_get, OnOk, IfOk};
ghost use Rattle.std.specs.List.{enumerate_from};
ghost use Rattle.sy_chains.specs.Chains.{NoCycle};
ghost use Rattle.sy_domain.specs.Machine.Ended.{noted_kind};
ghost use Rattle.sy_domain.specs.Ontologies as ontologies;
ghost use Rattle.sy_domain.specs.Ontologies.{put};

use crate::attributes::own;
use crate::{Meaning, Member, Names, Sort, TypeKind};
use indexmap::IndexMap;
use std::alloc::Global;
use sy_base::{List, Memory, Text};
use sy_chains::{find_ends, mark_at};
use sy_spec::{AttrTree, BaseTree, TypeTree};

/// The kind of type that a base makes.
fn kind_by(base: &BaseTree) -> Option<TypeKind>
    ensures { result ≡ ontologies.kind_by base.now }
{
    match base {
        BaseTree::Role(_) => Some(TypeKind::Role),
        BaseTree::Asset(_) => Some(TypeKind::Asset),
        BaseTree::Event(_) => Some(TypeKind::Event),
        BaseTree::Named(_) => None,
    }
}

/// The kind of the type at the end of a chain.
fn end_kind(types: &[TypeTree], end: Option<usize>) -> Option<TypeKind>
    ensures { result ≡ ontologies.end_kind (option_and_then (slice_get types.now) end) }
{
    match end {
        Some(number) => match types.get(number) {
            Some(TypeTree::Derived(_, base, _)) => kind_by(base),
            _ => None,
        },
        None => None,
    }
}

/// The kind of a type, by the ends of chains.
fn kind_of(
    types: &[TypeTree],
    ends: &[Option<usize>],
    number: usize,
    tree: &TypeTree,
) -> Option<TypeKind>
    ensures { result ≡ noted_kind types.now ends.now (number, tree.now) }
{
    match tree {
        TypeTree::Enumeration(_, _) => Some(TypeKind::Enumeration),
        TypeTree::Derived(_, _, _) => end_kind(types, mark_at(ends, number)),
    }
}

/// The kinds of types, by the ends of chains.
fn kinds_by(
    alloc: Global,
    types: &[TypeTree],
    ends: &[Option<usize>],
) -> Result<List<Option<TypeKind>>, Memory>
    ensures { IfOk result (λ kinds. kinds ≡ map (noted_kind types.now ends.now) (enumerate_from 0 types.now)) }
{
    let mut kinds = List::new(alloc);
    'tree: for (i, tree) in types.iter().enumerate() {
        kinds.push(kind_of(types, ends, i, tree))?;
    }
    Ok(kinds)
}

/// The kinds of all types.
pub(crate) fn all_kinds(
    alloc: Global,
    types: &[TypeTree],
    bases: &[Option<usize>],
) -> Result<List<Option<TypeKind>>, Memory>
    requires none { NoCycle bases.now }
    requires same { length bases.now ≡ length types.now }
    ensures { IfOk result (λ kinds. kinds ≡ map (ontologies.kind_of types.now bases.now) (enumerate_from 0 types.now)) }
{
    let ends = find_ends(alloc, bases)?;
    let kinds = kinds_by(alloc, types, &ends)?;
    Ok(kinds)
}

/// The sort that a type's name stands for.
pub(crate) fn sort_named(names: &Names, name: &Text) -> Sort
    ensures { result ≡ ontologies.sort_named names.now.table name.now }
{
    match names.meaning(name) {
        Some(Meaning::Type(sort)) => sort,
        _ => Sort::Number,
    }
}

/// An attribute as its type has it.
fn member_of(names: &Names, tree: &AttrTree) -> Member
    ensures { result ≡ ontologies.member_of names.now.table tree.now }
{
    Member {
        env: tree.env.is_some(),
        sort: sort_named(names, &tree.type_name.text),
    }
}

/// Puts attributes into a table.
fn put_all(
    alloc: Global,
    names: &Names,
    trees: &[AttrTree],
    table: &mut IndexMap<Text, Member>,
) -> Result<(), Memory>
    ensures { OnOk result (table.new.entries ≡ fold (put names.now.table) table.old.entries trees.now) }
{
    'tree: for tree in trees {
        table.insert(tree.name.text.copy(alloc)?, member_of(names, tree))?;
    }
    Ok(())
}

/// The own members of a type by their names.
fn own_members(
    alloc: Global,
    names: &Names,
    tree: &TypeTree,
) -> Result<IndexMap<Text, Member>, Memory>
    ensures { IfOk result (λ m. m.entries ≡ ontologies.own_members names.now.table tree.now) }
{
    let mut table = IndexMap::new(alloc);
    put_all(alloc, names, own(tree), &mut table)?;
    Ok(table)
}

/// The own members of all types.
pub(crate) fn all_owned(
    alloc: Global,
    names: &Names,
    types: &[TypeTree],
) -> Result<Vec<IndexMap<Text, Member>>, Memory>
    ensures { IfOk result (λ v. map (λ m. m.entries) v.items
        ≡ map (ontologies.own_members names.now.table) types.now) }
{
    let mut tables = Vec::new(alloc);
    'tree: for tree in types {
        tables.push(own_members(alloc, names, tree)?)?;
    }
    Ok(tables)
}

/// Puts names behind other names.
pub(crate) fn copy_names(alloc: Global, names: &[Text], out: &mut List<Text>) -> Result<(), Memory>
    ensures { OnOk result (out.new ≡ out.old ++ names.now) }
{
    'name: for name in names {
        out.push(name.copy(alloc)?)?;
    }
    Ok(())
}
