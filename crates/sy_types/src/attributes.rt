ghost use Rattle.std.specs.Prelude.{◌≡◌, ◌++◌, OnOk};
ghost use Rattle.std.specs.List.{flat_map, enumerate_from};
ghost use Rattle.sy_domain.specs.Failures.{unless};
ghost use Rattle.sy_types.specs.Attributes as attributes;

use std::alloc::Global;
use sy_base::{List, Memory};
use sy_domain::{Failure, Sort, TypeKind, fail_unless};
use sy_lex::{Keyword, Written};
use sy_scope::{Scope, fail_at};
use sy_spec::{AttrTree, BaseTree, TypeTree};

/// The sort that the name of a type stands for.
pub(crate) fn type_sort(scope: &Scope, name: &Written) -> Sort
    ensures { result ≡ attributes.type_sort scope.now name.now }
{
    scope.ontology().sort(&name.text)
}

pub(crate) fn is_role_or_asset(scope: &Scope, sort: Sort) -> bool
    ensures { result ≡ attributes.is_role_or_asset scope.now sort }
{
    matches!(scope.kind(sort), Some(TypeKind::Role | TypeKind::Asset))
}

/// Whether an attribute of a type of a kind may have a sort.
fn fits_attribute(scope: &Scope, kind: Option<TypeKind>, env: bool, sort: Sort) -> bool
    ensures { result ≡ attributes.fits_attribute scope.now kind env sort }
{
    let of_event = matches!(kind, Some(TypeKind::Event));
    if env {
        of_event && scope.is_value(sort)
    } else {
        scope.is_value(sort) || of_event && is_role_or_asset(scope, sort)
    }
}

/// Puts the failure at an attribute's first token behind the others, unless all is well.
fn fail_unless_attribute(
    alloc: Global,
    well: bool,
    attribute: &AttrTree,
    out: &mut List<Failure>,
) -> Result<(), Memory>
    ensures { OnOk result (out.new ≡ out.old ++ unless well (attributes.attribute_token attribute.now)) }
{
    match attribute.env {
        Some(place) if !well => {
            out.push(fail_at(alloc, Keyword::Env.word(), place)?)?;
            Ok(())
        }
        _ => fail_unless(alloc, well, &attribute.name, out),
    }
}

fn check_attribute(
    alloc: Global,
    scope: &Scope,
    kind: Option<TypeKind>,
    attribute: &AttrTree,
    out: &mut List<Failure>,
) -> Result<(), Memory>
    ensures { OnOk result (out.new ≡ out.old ++ attributes.wrong_attribute scope.now kind attribute.now) }
{
    let sort = type_sort(scope, &attribute.type_name);
    let well = fits_attribute(scope, kind, attribute.env.is_some(), sort);
    fail_unless_attribute(alloc, well, attribute, out)
}

fn check_attributes(
    alloc: Global,
    scope: &Scope,
    kind: Option<TypeKind>,
    own: &[AttrTree],
    out: &mut List<Failure>,
) -> Result<(), Memory>
    ensures { OnOk result (out.new ≡ out.old
        ++ flat_map (attributes.wrong_attribute scope.now kind) own.now) }
{
    'attribute: for attribute in own {
        check_attribute(alloc, scope, kind, attribute, out)?;
    }
    Ok(())
}

/// Finds a base that is an enumeration or a basic type.
fn check_base(
    alloc: Global,
    scope: &Scope,
    base: &BaseTree,
    out: &mut List<Failure>,
) -> Result<(), Memory>
    ensures { OnOk result (out.new ≡ out.old ++ attributes.wrong_base scope.now base.now) }
{
    match base {
        BaseTree::Named(name) => {
            let well = !scope.is_value(type_sort(scope, name));
            fail_unless(alloc, well, name, out)
        }
        _ => Ok(()),
    }
}

fn check_type(
    alloc: Global,
    scope: &Scope,
    number: usize,
    tree: &TypeTree,
    out: &mut List<Failure>,
) -> Result<(), Memory>
    ensures { OnOk result (out.new ≡ out.old ++ attributes.wrong_type scope.now (number, tree.now)) }
{
    match tree {
        TypeTree::Enumeration(_, _) => Ok(()),
        TypeTree::Derived(_, base, own) => {
            check_base(alloc, scope, base, out)?;
            let kind = scope.ontology().kind(number);
            check_attributes(alloc, scope, kind, own.items(), out)
        }
    }
}

/// Finds what is wrong with the bases and the attributes of types.
pub(crate) fn check_types(
    alloc: Global,
    scope: &Scope,
    types: &[TypeTree],
    out: &mut List<Failure>,
) -> Result<(), Memory>
    ensures { OnOk result (out.new ≡ out.old
        ++ flat_map (attributes.wrong_type scope.now) (enumerate_from 0 types.now)) }
{
    'tree: for (i, tree) in types.iter().enumerate() {
        check_type(alloc, scope, i, tree, out)?;
    }
    Ok(())
}
