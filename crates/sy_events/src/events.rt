ghost use Rattle.std.specs.Prelude.{◌≡◌, map, fold, reverse, IfOk, OnOk};
ghost use Rattle.sy_domain.specs.declared.meaning.Sort.TheVariants as S;
ghost use Rattle.sy_domain.specs.Ontologies.{owned_at};
ghost use Rattle.sy_events.specs.Machine.Owned.{put_owned};
ghost use Rattle.sy_events.specs.Events as events;
ghost use Rattle.sy_events.specs.Events.{attribute_kinds, declares_event, event_declarations, kinds_of_event};

use crate::numbers::numbers;
use indexmap::IndexMap;
use std::alloc::Global;
use sy_base::{List, Memory, Text};
use sy_core::{AttrDecl, EventDecl, ValueKind};
use sy_domain::{Member, Ontology, Sort, TypeKind};
use sy_scope::Scope;
use sy_spec::{DeclTree, TypeTree};

/// The kind of the values of a sort.
fn kind_of_values(choice_numbers: &[Option<u32>], sort: Sort) -> Option<ValueKind>
    ensures { result ≡ events.kind_with choice_numbers.now sort }
{
    match sort {
        Sort::Number => Some(ValueKind::Number),
        Sort::Text => Some(ValueKind::Text),
        Sort::Boolean => Some(ValueKind::Boolean),
        Sort::Date => Some(ValueKind::Date),
        Sort::Declared(number) => match choice_numbers.get(number) {
            Some(Some(enumeration)) => Some(ValueKind::Choice(*enumeration)),
            _ => None,
        },
    }
}

/// Puts a member with its kind into a table, if each happening gives its value.
fn put_member(
    alloc: Global,
    choice_numbers: &[Option<u32>],
    name: &Text,
    member: &Member,
    kinds: &mut IndexMap<Text, ValueKind>,
) -> Result<(), Memory>
    ensures { OnOk result (kinds.new.entries
        ≡ events.put_member choice_numbers.now kinds.old.entries (name.now, member.now)) }
{
    if !member.env {
        return Ok(());
    }
    match kind_of_values(choice_numbers, member.sort) {
        Some(kind) => {
            kinds.insert(name.copy(alloc)?, kind)?;
            Ok(())
        }
        None => Ok(()),
    }
}

/// Puts members into a table, those of which each happening gives the value.
fn put_members(
    alloc: Global,
    choice_numbers: &[Option<u32>],
    members: &IndexMap<Text, Member>,
    kinds: &mut IndexMap<Text, ValueKind>,
) -> Result<(), Memory>
    ensures { OnOk result (kinds.new.entries
        ≡ fold (events.put_member choice_numbers.now) kinds.old.entries members.now.entries) }
{
    'member: for i in 0..members.len() {
        match members.get_index(i) {
            Some((name, member)) => put_member(alloc, choice_numbers, name, member, kinds)?,
            None => {}
        }
    }
    Ok(())
}

/// Puts the own members of a type into a table, those of which each happening gives the value.
fn put_own(
    alloc: Global,
    ontology: &Ontology,
    choice_numbers: &[Option<u32>],
    number: usize,
    kinds: &mut IndexMap<Text, ValueKind>,
) -> Result<(), Memory>
    ensures { OnOk result (kinds.new.entries
        ≡ fold (events.put_member choice_numbers.now) kinds.old.entries (owned_at ontology.now number)) }
{
    match ontology.own_members(number) {
        Some(members) => put_members(alloc, choice_numbers, members, kinds),
        None => Ok(()),
    }
}

/// Puts the own members of some types into a table, the last type's first.
fn put_all(
    alloc: Global,
    ontology: &Ontology,
    choice_numbers: &[Option<u32>],
    numbers: &[usize],
    kinds: &mut IndexMap<Text, ValueKind>,
) -> Result<(), Memory>
    ensures { OnOk result (kinds.new.entries
        ≡ fold (put_owned ontology.now choice_numbers.now) kinds.old.entries (reverse numbers.now)) }
{
    'number: for number in numbers.iter().rev() {
        put_own(alloc, ontology, choice_numbers, *number, kinds)?;
    }
    Ok(())
}

/// The attributes of which each happening of an event of the type with a number gives a value.
fn attributes_at(
    alloc: Global,
    ontology: &Ontology,
    choice_numbers: &[Option<u32>],
    number: usize,
) -> Result<IndexMap<Text, ValueKind>, Memory>
    ensures { IfOk result (λ kinds. kinds.entries ≡ attribute_kinds ontology.now choice_numbers.now (S.Declared number)) }
{
    let above = ontology.above(alloc, number)?;
    let mut kinds = IndexMap::new(alloc);
    put_all(alloc, ontology, choice_numbers, above.items(), &mut kinds)?;
    put_own(alloc, ontology, choice_numbers, number, &mut kinds)?;
    Ok(kinds)
}

/// The same of an event of a sort.
fn attributes_of(
    alloc: Global,
    ontology: &Ontology,
    choice_numbers: &[Option<u32>],
    sort: Sort,
) -> Result<IndexMap<Text, ValueKind>, Memory>
    ensures { IfOk result (λ kinds. kinds.entries ≡ attribute_kinds ontology.now choice_numbers.now sort) }
{
    match sort {
        Sort::Declared(number) => attributes_at(alloc, ontology, choice_numbers, number),
        _ => Ok(IndexMap::new(alloc)),
    }
}

/// Whether a declaration is that of an event.
fn is_event(scope: &Scope, declaration: &DeclTree) -> bool
    ensures { result ≡ declares_event scope.now declaration.now }
{
    let sort = scope.ontology().sort(&declaration.type_name.text);
    matches!(scope.kind(sort), Some(TypeKind::Event))
}

/// The attributes of each declared event.
pub(crate) fn all_kinds(
    alloc: Global,
    scope: &Scope,
    choice_numbers: &[Option<u32>],
    declarations: &[DeclTree],
) -> Result<Vec<IndexMap<Text, ValueKind>>, Memory>
    ensures { IfOk result (λ v. map (λ m. m.entries) v.items
        ≡ map (kinds_of_event scope.now choice_numbers.now) (event_declarations scope.now declarations.now)) }
{
    let mut tables = Vec::new(alloc);
    'declaration: for declaration in declarations {
        if is_event(scope, declaration) {
            let sort = scope.ontology().sort(&declaration.type_name.text);
            tables.push(attributes_of(alloc, scope.ontology(), choice_numbers, sort)?)?;
        }
    }
    Ok(tables)
}

/// Attributes with their kinds.
fn attributes(alloc: Global, kinds: &IndexMap<Text, ValueKind>) -> Result<List<AttrDecl>, Memory>
    ensures { IfOk result (λ list. list ≡ map events.attribute kinds.now.entries) }
{
    let mut list = List::new(alloc);
    'attribute: for i in 0..kinds.len() {
        match kinds.get_index(i) {
            Some((name, kind)) => list.push(AttrDecl {
                name: name.copy(alloc)?,
                kind: *kind,
            })?,
            None => {}
        }
    }
    Ok(list)
}

/// The declared events.
pub(crate) fn all_events(
    alloc: Global,
    scope: &Scope,
    choice_numbers: &[Option<u32>],
    declarations: &[DeclTree],
) -> Result<List<EventDecl>, Memory>
    ensures { IfOk result (λ list. list
        ≡ map (events.event_of scope.now choice_numbers.now) (event_declarations scope.now declarations.now)) }
{
    let mut list = List::new(alloc);
    'declaration: for declaration in declarations {
        if is_event(scope, declaration) {
            let sort = scope.ontology().sort(&declaration.type_name.text);
            let kinds = attributes_of(alloc, scope.ontology(), choice_numbers, sort)?;
            list.push(EventDecl {
                name: declaration.name.text.copy(alloc)?,
                attrs: attributes(alloc, &kinds)?,
            })?;
        }
    }
    Ok(list)
}

/// Which of some declarations are those of events.
fn which(alloc: Global, scope: &Scope, declarations: &[DeclTree]) -> Result<List<bool>, Memory>
    ensures { IfOk result (λ meant. meant ≡ map (declares_event scope.now) declarations.now) }
{
    let mut meant = List::new(alloc);
    'declaration: for declaration in declarations {
        meant.push(is_event(scope, declaration))?;
    }
    Ok(meant)
}

/// The numbers of the declared events among themselves, by their numbers among the declarations.
pub(crate) fn numbers_of_events(
    alloc: Global,
    scope: &Scope,
    declarations: &[DeclTree],
) -> Result<List<Option<u32>>, Memory>
    ensures { IfOk result (λ found. found ≡ events.event_numbers scope.now declarations.now) }
{
    let meant = which(alloc, scope, declarations)?;
    numbers(alloc, meant.items())
}
