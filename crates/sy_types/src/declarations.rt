ghost use Rattle.std.specs.Prelude.{◌≡◌, ℕ, List, ◌++◌, OnOk, IfOk};
ghost use Rattle.std.specs.List.{flat_map, list_any, list_all, enumerate_from};
ghost use Rattle.sy_domain.specs.Names.{same};
ghost use Rattle.sy_domain.specs.Ontologies.{members_in, owned_at};
ghost use Rattle.sy_types.specs.Declarations as declarations;

use crate::attributes::{is_role_or_asset, type_sort};
use crate::comparisons::is_same_sort;
use crate::terms::check_rhs;
use indexmap::IndexSet;
use std::alloc::Global;
use sy_base::{List, Memory, Text};
use sy_domain::{Failure, Ontology, Sort, TypeKind, fail_unless};
use sy_scope::{Scope, rhs_sort};
use sy_spec::{DeclTree, GiveTree, ParamTree};

fn check_parameter(
    alloc: Global,
    scope: &Scope,
    parameter: &ParamTree,
    out: &mut List<Failure>,
) -> Result<(), Memory>
    ensures { OnOk result (out.new ≡ out.old ++ declarations.wrong_parameter scope.now parameter.now) }
{
    let sort = type_sort(scope, &parameter.type_name);
    let well = scope.is_value(sort) || is_role_or_asset(scope, sort);
    fail_unless(alloc, well, &parameter.name, out)
}

/// Finds the parameters that are neither values nor roles nor assets.
pub(crate) fn check_parameters(
    alloc: Global,
    scope: &Scope,
    parameters: &[ParamTree],
    out: &mut List<Failure>,
) -> Result<(), Memory>
    ensures { OnOk result (out.new ≡ out.old
        ++ flat_map (declarations.wrong_parameter scope.now) parameters.now) }
{
    'parameter: for parameter in parameters {
        check_parameter(alloc, scope, parameter, out)?;
    }
    Ok(())
}

/// Whether a declaration may have a sort.
fn fits_declaration(scope: &Scope, sort: Sort) -> bool
    ensures { result ≡ declarations.fits_declaration scope.now sort }
{
    is_role_or_asset(scope, sort) || matches!(scope.kind(sort), Some(TypeKind::Event))
}

/// Whether what has one sort can be given where another is wanted.
fn is_given_as(scope: &Scope, from: Sort, to: Sort) -> bool
    ensures { result ≡ declarations.is_given_as scope.now from to }
{
    match (from, to) {
        (Sort::Declared(from), Sort::Declared(to)) => scope.ontology().derives(from, to),
        _ => is_same_sort(from, to),
    }
}

/// Whether what is given fits the attribute that it is given to.
fn fits_give(scope: &Scope, wanted: Option<Sort>, given: Option<Sort>) -> bool
    ensures { result ≡ declarations.fits_give scope.now wanted given }
{
    match (wanted, given) {
        (Some(wanted), Some(given)) => is_given_as(scope, given, wanted),
        _ => false,
    }
}

fn check_give(
    alloc: Global,
    scope: &Scope,
    visible: usize,
    sort: Sort,
    give: &GiveTree,
    out: &mut List<Failure>,
) -> Result<(), Memory>
    ensures { OnOk result (out.new ≡ out.old ++ declarations.wrong_give scope.now visible sort give.now) }
{
    check_rhs(alloc, scope, visible, &give.value, out)?;
    let wanted = scope.plain(sort, &give.name.text);
    let given = rhs_sort(scope, visible, &give.value);
    fail_unless(alloc, fits_give(scope, wanted, given), &give.name, out)
}

fn check_gives(
    alloc: Global,
    scope: &Scope,
    visible: usize,
    sort: Sort,
    gives: &[GiveTree],
    out: &mut List<Failure>,
) -> Result<(), Memory>
    ensures { OnOk result (out.new ≡ out.old
        ++ flat_map (declarations.wrong_give scope.now visible sort) gives.now) }
{
    'give: for give in gives {
        check_give(alloc, scope, visible, sort, give, out)?;
    }
    Ok(())
}

/// The names of the attributes that are given.
fn given_names(alloc: Global, gives: &[GiveTree]) -> Result<IndexSet<Text>, Memory>
    ensures { IfOk result (λ names. (name : List ℕ)
        → list_any (same name) names.keys ≡ list_any (same name) (declarations.given_names gives.now)) }
{
    let mut names = IndexSet::new(alloc);
    'give: for give in gives {
        names.insert(give.name.text.copy(alloc)?)?;
    }
    Ok(names)
}

/// Whether each own attribute of a type is among the names, or is an Env one.
fn are_own_named(ontology: &Ontology, number: usize, names: &IndexSet<Text>) -> bool
    ensures { result ≡ list_all (declarations.is_among names.now.keys) (owned_at ontology.now number) }
{
    match ontology.own_members(number) {
        Some(members) => members
            .iter()
            .all(|(name, member)| member.env || names.contains(name)),
        None => true,
    }
}

/// Whether each own attribute of some types is.
fn are_all_named(ontology: &Ontology, numbers: &[usize], names: &IndexSet<Text>) -> bool
    ensures { result ≡ list_all
        (λ n. list_all (declarations.is_among names.now.keys) (owned_at ontology.now n)) numbers.now }
{
    numbers
        .iter()
        .all(|number| are_own_named(ontology, *number, names))
}

/// Whether a declaration of a sort gives all that it has to.
fn gives_all(alloc: Global, scope: &Scope, sort: Sort, gives: &[GiveTree]) -> Result<bool, Memory>
    ensures { IfOk result (λ all. all
        ≡ list_all (declarations.is_among (declarations.given_names gives.now)) (members_in scope.now.domain sort)) }
{
    let names = given_names(alloc, gives)?;
    let ontology = scope.ontology();
    match sort {
        Sort::Declared(number) if are_own_named(ontology, number, &names) => {
            let above = ontology.above(alloc, number)?;
            Ok(are_all_named(ontology, above.items(), &names))
        }
        Sort::Declared(_) => Ok(false),
        _ => Ok(true),
    }
}

fn check_declaration(
    alloc: Global,
    scope: &Scope,
    number: usize,
    declaration: &DeclTree,
    out: &mut List<Failure>,
) -> Result<(), Memory>
    ensures { OnOk result (out.new ≡ out.old
        ++ declarations.wrong_declaration scope.now (number, declaration.now)) }
{
    let sort = type_sort(scope, &declaration.type_name);
    let gives = declaration.gives.items();
    fail_unless(alloc, fits_declaration(scope, sort), &declaration.name, out)?;
    check_gives(alloc, scope, number, sort, gives, out)?;
    let well = gives_all(alloc, scope, sort, gives)?;
    fail_unless(alloc, well, &declaration.name, out)
}

/// Finds what is wrong with declarations: their types, and what they give to attributes.
pub(crate) fn check_declarations(
    alloc: Global,
    scope: &Scope,
    declared: &[DeclTree],
    out: &mut List<Failure>,
) -> Result<(), Memory>
    ensures { OnOk result (out.new ≡ out.old
        ++ flat_map (declarations.wrong_declaration scope.now) (enumerate_from 0 declared.now)) }
{
    'declaration: for (i, declaration) in declared.iter().enumerate() {
        check_declaration(alloc, scope, i, declaration, out)?;
    }
    Ok(())
}
