ghost use Rattle.std.specs.Prelude.{◌≡◌, ◌++◌, OnOk};
ghost use Rattle.std.specs.List.{flat_map, enumerate_from};
ghost use Rattle.sy_names.specs.Declarations.{unknown_in_declaration, unknown_in_give};

use crate::uses::Uses;
use std::alloc::Global;
use sy_base::{List, Memory};
use sy_domain::{Failure, Sort};
use sy_scope::Scope;
use sy_spec::{DeclTree, GiveTree};

impl<'a> Uses<'a> {
    /// What a declaration of a type gives to an attribute.
    fn check_give(&self, sort: Sort, give: &GiveTree, out: &mut List<Failure>) -> Result<(), Memory>
        ensures { OnOk result (out.new ≡ out.old
            ++ unknown_in_give self.now.scope.now self.now.visible sort give.now) }
    {
        self.check_attribute(Some(sort), &give.name, out)?;
        self.check_rhs(&give.value, out)
    }

    /// What a declaration of a type gives to its attributes.
    fn check_gives(
        &self,
        sort: Sort,
        gives: &[GiveTree],
        out: &mut List<Failure>,
    ) -> Result<(), Memory>
        ensures { OnOk result (out.new ≡ out.old
            ++ flat_map (unknown_in_give self.now.scope.now self.now.visible sort) gives.now) }
    {
        'give: for give in gives {
            self.check_give(sort, give, out)?;
        }
        Ok(())
    }
}

/// The declaration with a number: its terms may name the ones before it.
fn check_declaration(
    alloc: Global,
    scope: &Scope,
    number: usize,
    declaration: &DeclTree,
    out: &mut List<Failure>,
) -> Result<(), Memory>
    ensures { OnOk result (out.new ≡ out.old
        ++ unknown_in_declaration scope.now (number, declaration.now)) }
{
    let uses = Uses {
        alloc,
        scope,
        visible: number,
    };
    let sort = scope.ontology().sort(&declaration.type_name.text);
    uses.check_gives(sort, declaration.gives.items(), out)
}

/// All declarations.
pub(crate) fn check_declarations(
    alloc: Global,
    scope: &Scope,
    declarations: &[DeclTree],
    out: &mut List<Failure>,
) -> Result<(), Memory>
    ensures { OnOk result (out.new ≡ out.old
        ++ flat_map (unknown_in_declaration scope.now) (enumerate_from 0 declarations.now)) }
{
    'declaration: for (i, declaration) in declarations.iter().enumerate() {
        check_declaration(alloc, scope, i, declaration, out)?;
    }
    Ok(())
}
