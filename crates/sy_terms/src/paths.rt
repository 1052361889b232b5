ghost use Rattle.std.specs.Prelude.{◌≡◌, IfOk};
ghost use Rattle.sy_terms.specs.Items as items;
ghost use Rattle.sy_terms.specs.Items.{path_item};

use crate::{Environment, Item};
use std::alloc::Global;
use sy_base::{Memory, Text};
use sy_domain::Meaning;
use sy_given::Known;
use sy_scope::Scope;
use sy_tree::PathTree;

/// What a name stands for.
fn item_named(
    alloc: Global,
    scope: &Scope,
    environment: &Environment,
    name: &Text,
) -> Result<Option<Item>, Memory>
    ensures { IfOk result (λ item. item ≡ items.item_named scope.now environment.now name.now) }
{
    match scope.meaning(name) {
        Some(Meaning::Parameter(number)) => environment.parameter(alloc, number),
        Some(Meaning::Constant(of, number)) => Ok(Some(Item::Value(Known::Constant(of, number)))),
        Some(Meaning::Declaration(number)) => Ok(Some(Item::Declaration(number))),
        _ => Ok(None),
    }
}

/// An attribute of what is there.
fn attribute_of(
    alloc: Global,
    environment: &Environment,
    name: &Text,
    item: Option<Item>,
) -> Result<Option<Item>, Memory>
    ensures { IfOk result (λ found. found ≡ items.attribute_of environment.now name.now item) }
{
    match item {
        Some(Item::Parameter(number)) => environment.field(alloc, number, name),
        Some(Item::Declaration(number)) => environment.attribute(alloc, number, name),
        _ => Ok(None),
    }
}

/// What a path stands for: None where nothing is known of it. The parameters and the declarations
/// are not copied; they stand there by their numbers.
pub fn item_of_path(
    alloc: Global,
    scope: &Scope,
    environment: &Environment,
    path: &PathTree,
) -> Result<Option<Item>, Memory>
    ensures { IfOk result (λ item. item ≡ path_item scope.now environment.now path.now) }
{
    match path {
        PathTree::Name(name) => item_named(alloc, scope, environment, &name.text),
        PathTree::Attribute(name, attribute) => {
            let thing = item_named(alloc, scope, environment, &name.text)?;
            attribute_of(alloc, environment, &attribute.text, thing)
        }
        PathTree::Inner(name, attribute, inner) => {
            let thing = item_named(alloc, scope, environment, &name.text)?;
            let thing = attribute_of(alloc, environment, &attribute.text, thing)?;
            attribute_of(alloc, environment, &inner.text, thing)
        }
    }
}
