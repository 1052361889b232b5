ghost use Rattle.std.specs.Prelude.{◌≡◌, ◌++◌, OnOk, IfOk};
ghost use Rattle.std.specs.List.{flat_map};
ghost use Rattle.sy_domain.specs.TypeNames as types;
ghost use Rattle.sy_domain.specs.TypeNames.{no_type, no_type_of, no_types, unknown_types};
ghost use Rattle.sy_domain.specs.Names.{meaning_in};

use crate::failure::fail_unless;
use crate::{Failure, Meaning, Names};
use std::alloc::Global;
use sy_base::{List, Memory, Text};
use sy_lex::Written;
use sy_spec::{AttrTree, BaseTree, DeclTree, ParamTree, SpecTree, TypeTree};

/// What has a type.
pub(crate) trait HasType {
    ghost use Rattle.sy_lex.specs.declared.written.Written.{Written as Token};

    /// The name of the type.
    ghost own_type: { Self → Token };

    fn type_name(&self) -> &Written
        ensures { result.now ≡ own_type self.now };
}

impl HasType for AttrTree {
    ghost own_type = { λ t. t.type_name };

    fn type_name(&self) -> &Written {
        &self.type_name
    }
}

impl HasType for ParamTree {
    ghost own_type = { λ t. t.type_name };

    fn type_name(&self) -> &Written {
        &self.type_name
    }
}

impl HasType for DeclTree {
    ghost own_type = { λ t. t.type_name };

    fn type_name(&self) -> &Written {
        &self.type_name
    }
}

fn is_type(names: &Names, name: &Text) -> bool
    ensures { result ≡ types.is_type (meaning_in names.now.table name.now) }
{
    matches!(names.meaning(name), Some(Meaning::Type(_)))
}

fn check_name(
    alloc: Global,
    names: &Names,
    name: &Written,
    out: &mut List<Failure>,
) -> Result<(), Memory>
    ensures { OnOk result (out.new ≡ out.old ++ no_type names.now.table name.now) }
{
    fail_unless(alloc, is_type(names, &name.text), name, out)
}

fn check_each<T: HasType>(
    alloc: Global,
    names: &Names,
    things: &[T],
    out: &mut List<Failure>,
) -> Result<(), Memory>
    ensures { OnOk result (out.new ≡ out.old
        ++ flat_map (no_type_of names.now.table T.own_type) things.now) }
{
    'thing: for thing in things {
        check_name(alloc, names, thing.type_name(), out)?;
    }
    Ok(())
}

fn check_type(
    alloc: Global,
    names: &Names,
    tree: &TypeTree,
    out: &mut List<Failure>,
) -> Result<(), Memory>
    ensures { OnOk result (out.new ≡ out.old ++ no_types names.now.table tree.now) }
{
    match tree {
        TypeTree::Enumeration(_, _) => Ok(()),
        TypeTree::Derived(_, BaseTree::Named(base), attributes) => {
            check_name(alloc, names, base, out)?;
            check_each(alloc, names, attributes.items(), out)
        }
        TypeTree::Derived(_, _, attributes) => check_each(alloc, names, attributes.items(), out),
    }
}

fn check_types(
    alloc: Global,
    names: &Names,
    trees: &[TypeTree],
    out: &mut List<Failure>,
) -> Result<(), Memory>
    ensures { OnOk result (out.new ≡ out.old ++ flat_map (no_types names.now.table) trees.now) }
{
    'tree: for tree in trees {
        check_type(alloc, names, tree, out)?;
    }
    Ok(())
}

/// The bases, and the types of attributes, parameters and declarations, that are no types.
pub(crate) fn find_unknown(
    alloc: Global,
    names: &Names,
    tree: &SpecTree,
) -> Result<List<Failure>, Memory>
    ensures { IfOk result (λ found. found ≡ unknown_types names.now.table tree.now) }
{
    let mut out = List::new(alloc);
    check_types(alloc, names, tree.domain.types.items(), &mut out)?;
    check_each(alloc, names, tree.contract.parameters.items(), &mut out)?;
    check_each(alloc, names, tree.contract.declarations.items(), &mut out)?;
    Ok(out)
}
