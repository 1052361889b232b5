ghost use Rattle.std.specs.Prelude.{◌≡◌, [], fold, slice_get, option_and_then, option_map, IfOk, OnOk};
ghost use Rattle.std.specs.Map.{lookup};
ghost use Rattle.sy_domain.specs.Names.{same};
ghost use Rattle.sy_terms.specs.Environments as environments;
ghost use Rattle.sy_terms.specs.Environments.{environment_of, put_give};
ghost use Rattle.sy_terms.specs.Items.{field_of, item_of_bound};

use crate::{Item, item_of_rhs};
use indexmap::IndexMap;
use std::alloc::Global;
use std::marker::Model;
use sy_base::{List, Memory, Text, TimeUnit};
use sy_given::Bound;
use sy_scope::Scope;
use sy_spec::{DeclTree, GiveTree, SpecTree};

/// What is known where a term stands: what the parameters are bound to, and the attributes of the
/// declarations.
#[derive(Drop)]
pub struct Environment {
    unit: TimeUnit,
    parameters: List<Bound>,
    /// The attributes of each declaration by their names.
    declarations: Vec<IndexMap<Text, Item>>,
}

impl Model for Environment {
    ghost use Rattle.std.specs.Prelude.{map};
    ghost use Rattle.sy_terms.specs.Items.{Environment as Known};

    ghost Value = { Known };

    ghost view = { λ e. record {
      unit = e.unit;
      parameters = e.parameters;
      declarations = map (λ m. m.entries) e.declarations.items;
    } };
}

impl Environment {
    /// What is known where the parameters of a specification are bound so, each by its number.
    pub fn of(
        alloc: Global,
        scope: &Scope,
        spec: &SpecTree,
        parameters: List<Bound>,
    ) -> Result<Environment, Memory>
        ensures { IfOk result (λ e. e ≡ environment_of scope.now spec.now parameters) }
    {
        let mut environment = Environment {
            unit: spec.contract.unit.unit,
            parameters,
            declarations: Vec::new(alloc),
        };
        environment.declare_each(alloc, scope, spec.contract.declarations.items())?;
        Ok(environment)
    }

    /// Adds what is known of declarations, each by those before it.
    fn declare_each(
        &mut self,
        alloc: Global,
        scope: &Scope,
        declarations: &[DeclTree],
    ) -> Result<(), Memory>
        ensures { OnOk result (self.new
            ≡ fold (environments.declare scope.now) self.old declarations.now) }
    {
        'declaration: for declaration in declarations {
            self.declare(alloc, scope, declaration)?;
        }
        Ok(())
    }

    /// Adds what is known of a declaration.
    fn declare(
        &mut self,
        alloc: Global,
        scope: &Scope,
        declaration: &DeclTree,
    ) -> Result<(), Memory>
        ensures { OnOk result (self.new
            ≡ environments.declare scope.now self.old declaration.now) }
    {
        let items = self.given(alloc, scope, declaration.gives.items())?;
        self.declarations.push(items)?;
        Ok(())
    }

    /// What a declaration gives to its attributes.
    fn given(
        &self,
        alloc: Global,
        scope: &Scope,
        gives: &[GiveTree],
    ) -> Result<IndexMap<Text, Item>, Memory>
        ensures { IfOk result (λ items. items.entries
            ≡ fold (put_give scope.now self.now) [] gives.now) }
    {
        let mut items = IndexMap::new(alloc);
        'give: for give in gives {
            match item_of_rhs(alloc, scope, self, &give.value)? {
                Some(item) => {
                    items.insert(give.name.text.copy(alloc)?, item)?;
                }
                None => {}
            }
        }
        Ok(items)
    }

    /// The unit in which the contract counts time.
    pub fn unit(&self) -> TimeUnit
        ensures { result ≡ self.now.unit }
    {
        self.unit
    }

    /// What the parameter with a number stands for.
    pub(crate) fn parameter(&self, alloc: Global, number: usize) -> Result<Option<Item>, Memory>
        ensures { IfOk result (λ item. item
            ≡ option_map (item_of_bound number) (slice_get self.now.parameters number)) }
    {
        Ok(match self.parameters.items().get(number) {
            Some(Bound::Value(known)) => Some(Item::Value(known.copy(alloc)?)),
            Some(Bound::Fields(_)) => Some(Item::Parameter(number)),
            None => None,
        })
    }

    /// An attribute of the parameter with a number.
    pub(crate) fn field(
        &self,
        alloc: Global,
        number: usize,
        name: &Text,
    ) -> Result<Option<Item>, Memory>
        ensures { IfOk result (λ item. item
            ≡ field_of (slice_get self.now.parameters number) name.now) }
    {
        let Some(Bound::Fields(fields)) = self.parameters.items().get(number) else {
            return Ok(None);
        };
        match fields.get(name) {
            Some(known) => Ok(Some(Item::Value(known.copy(alloc)?))),
            None => Ok(None),
        }
    }

    /// An attribute of the declaration with a number.
    pub(crate) fn attribute(
        &self,
        alloc: Global,
        number: usize,
        name: &Text,
    ) -> Result<Option<Item>, Memory>
        ensures { IfOk result (λ item. item
            ≡ option_and_then (lookup (same name.now)) (slice_get self.now.declarations number)) }
    {
        let Some(items) = self.declarations.get(number) else {
            return Ok(None);
        };
        match items.get(name) {
            Some(item) => Ok(Some(item.copy(alloc)?)),
            None => Ok(None),
        }
    }
}
