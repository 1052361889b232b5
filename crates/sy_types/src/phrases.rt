ghost use Rattle.std.specs.Prelude.{◌≡◌, ◌++◌, OnOk};
ghost use Rattle.sy_scope.specs.Walks.{found_in};
ghost use Rattle.sy_types.specs.WrongTypes.{wrong_phrases as wrong};

use crate::comparisons::{check_comparison, check_guard};
use crate::dates::{check_duration, check_moment};
use crate::targets::check_internal;
use std::alloc::Global;
use sy_base::{List, Memory, Place};
use sy_domain::Failure;
use sy_lex::Written;
use sy_scope::{Leaves, Scope, walk_contract};
use sy_spec::ContractTree;
use sy_tree::{
    CmpTree, DurationTree, GuardTree, PathTree, RhsTree, SituationTree, TargetTree, TermTree,
};
use sy_words::Kind;

/// Finds the phrases of propositions that break the rules of types.
#[derive(Drop)]
struct Phrases<'a> {
    alloc: Global,
    scope: &'a Scope,
    /// How many of the first declarations may be named.
    visible: usize,
}

impl<'a> Leaves for Phrases<'a> {
    ghost use Rattle.sy_types.specs.WrongTypes.{wrong_phrases};

    ghost found = { λ phrases. wrong_phrases phrases.scope.now phrases.visible };

    fn comparison(
        &self,
        left: &TermTree,
        cmp: &CmpTree,
        right: &RhsTree,
        out: &mut List<Failure>,
    ) -> Result<(), Memory> {
        check_comparison(self.alloc, self.scope, self.visible, left, cmp, right, out)
    }

    fn happening(&self, _: &Written, _: &mut List<Failure>) -> Result<(), Memory> {
        Ok(())
    }

    fn guard(
        &self,
        event: &Written,
        guard: &GuardTree,
        out: &mut List<Failure>,
    ) -> Result<(), Memory> {
        check_guard(self.alloc, self.scope, self.visible, event, guard, out)
    }

    fn internal(
        &self,
        kind: Kind,
        place: Place,
        target: &TargetTree,
        out: &mut List<Failure>,
    ) -> Result<(), Memory> {
        check_internal(self.alloc, self.scope, kind, place, target, out)
    }

    fn situation(&self, _: &SituationTree, _: &mut List<Failure>) -> Result<(), Memory> {
        Ok(())
    }

    fn fixed(&self, _: &Written, _: &mut List<Failure>) -> Result<(), Memory> {
        Ok(())
    }

    fn path(&self, path: &PathTree, out: &mut List<Failure>) -> Result<(), Memory> {
        check_moment(self.alloc, self.scope, self.visible, path, out)
    }

    fn duration(&self, duration: &DurationTree, out: &mut List<Failure>) -> Result<(), Memory> {
        check_duration(self.alloc, self.scope, self.visible, duration, out)
    }
}

/// Finds what is wrong with the phrases of the propositions of a contract, where so many first
/// declarations may be named.
pub(crate) fn check_phrases(
    alloc: Global,
    scope: &Scope,
    visible: usize,
    contract: &ContractTree,
    out: &mut List<Failure>,
) -> Result<(), Memory>
    ensures { OnOk result (out.new ≡ out.old ++ found_in (wrong scope.now visible) contract.now) }
{
    let phrases = Phrases {
        alloc,
        scope,
        visible,
    };
    walk_contract(&phrases, contract, out)
}
