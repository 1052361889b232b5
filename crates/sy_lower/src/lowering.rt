ghost use Rattle.std.specs.Prelude.{◌≡◌};
ghost use Rattle.sy_typing.specs.Positions.{HasFewPositions};

use std::alloc::Global;
use std::marker::Model;
use sy_events::Declared;
use sy_scope::Scope;
use sy_spec::ContractTree;
use sy_terms::Environment;

/// What the propositions of a contract are turned by into those of its deed.
#[derive(Drop)]
pub struct Lowering<'a> {
    pub(crate) alloc: Global,
    pub(crate) scope: &'a Scope,
    pub(crate) contract: &'a ContractTree,
    pub(crate) environment: &'a Environment,
    pub(crate) declared: &'a Declared,
}

impl<'a> Model for Lowering<'a> {
    ghost use Rattle.sy_lower.specs.Basis.{Basis};
    ghost use Rattle.sy_typing.specs.Positions.{HasFewPositions};
    ghost use Rattle.sy_tree.specs.contracts.proposition.PropTree as prop;
    ghost use Rattle.std.specs.Coded.{codes};

    ghost Value = { Basis };

    ghost coded = { Prim.hlevel (codes, prop.the_row.coded) };

    ghost view = { λ l. record {
      things = l.scope.now;
      contract = l.contract.now;
      environment = l.environment.now;
      declared = l.declared.now;
    } };

    ghost invariant = { λ l. HasFewPositions l.contract.now };
}

impl<'a> Lowering<'a> {
    /// The same for a contract that has at most 500 positions.
    pub fn of(
        alloc: Global,
        scope: &'a Scope,
        contract: &'a ContractTree,
        environment: &'a Environment,
        declared: &'a Declared,
    ) -> Lowering<'a>
        requires { HasFewPositions contract.now }
        ensures things { result.things ≡ scope.now }
        ensures contract { result.contract ≡ contract.now }
        ensures environment { result.environment ≡ environment.now }
        ensures declared { result.declared ≡ declared.now }
    {
        Lowering {
            alloc,
            scope,
            contract,
            environment,
            declared,
        }
    }
}
