ghost use Rattle.std.specs.Prelude.{◌≡◌, ◌++◌, OnOk};

use std::alloc::Global;
use sy_base::{List, Memory, Place};
use sy_domain::Failure;
use sy_lex::Written;
use sy_scope::{Leaves, Scope};
use sy_tree::{
    CmpTree, DurationTree, GuardTree, PathTree, RhsTree, SituationTree, TargetTree, TermTree,
};
use sy_words::Kind;

/// Looks for names that aren't declared for their place. Each call puts what it finds behind the
/// others.
#[derive(Drop)]
pub(crate) struct Uses<'a> {
    pub(crate) alloc: Global,
    pub(crate) scope: &'a Scope,
    /// How many first declarations may be named.
    pub(crate) visible: usize,
}

impl<'a> Leaves for Uses<'a> {
    ghost use Rattle.sy_names.specs.UnknownNames.{unknown_in_parts};

    ghost found = { λ uses. unknown_in_parts uses.scope.now uses.visible };

    fn comparison(
        &self,
        left: &TermTree,
        _: &CmpTree,
        right: &RhsTree,
        out: &mut List<Failure>,
    ) -> Result<(), Memory> {
        self.check_term(left, out)?;
        self.check_rhs(right, out)
    }

    fn happening(&self, name: &Written, out: &mut List<Failure>) -> Result<(), Memory> {
        self.check_event(name, out)
    }

    fn guard(
        &self,
        event: &Written,
        guard: &GuardTree,
        out: &mut List<Failure>,
    ) -> Result<(), Memory> {
        self.check_guard(event, guard, out)
    }

    fn internal(
        &self,
        _: Kind,
        _: Place,
        target: &TargetTree,
        out: &mut List<Failure>,
    ) -> Result<(), Memory> {
        self.check_target(target, out)
    }

    fn situation(&self, situation: &SituationTree, out: &mut List<Failure>) -> Result<(), Memory> {
        self.check_situation(situation, out)
    }

    fn fixed(&self, _: &Written, _: &mut List<Failure>) -> Result<(), Memory> {
        Ok(())
    }

    fn path(&self, path: &PathTree, out: &mut List<Failure>) -> Result<(), Memory> {
        self.check_path(path, out)
    }

    fn duration(&self, duration: &DurationTree, out: &mut List<Failure>) -> Result<(), Memory> {
        self.check_duration(duration, out)
    }
}
