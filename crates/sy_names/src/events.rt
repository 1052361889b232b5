ghost use Rattle.std.specs.Prelude.{◌≡◌, ◌++◌, OnOk};
ghost use Rattle.sy_names.specs.Events.{unknown_env, unknown_event, unknown_in_guard};

use crate::uses::Uses;
use sy_base::{List, Memory};
use sy_domain::{Failure, Sort, fail_unless};
use sy_lex::Written;
use sy_tree::GuardTree;

impl<'a> Uses<'a> {
    /// The name of a declared event.
    pub(crate) fn check_event(&self, name: &Written, out: &mut List<Failure>) -> Result<(), Memory>
        ensures { OnOk result (out.new ≡ out.old ++ unknown_event self.now.scope.now name.now) }
    {
        let is_known = self.scope.event(&name.text).is_some();
        fail_unless(self.alloc, is_known, name, out)
    }

    /// The name of an Env attribute of an event of a type.
    fn check_env(
        &self,
        event: Option<Sort>,
        name: &Written,
        out: &mut List<Failure>,
    ) -> Result<(), Memory>
        ensures { OnOk result (out.new ≡ out.old ++ unknown_env self.now.scope.now event name.now) }
    {
        let Some(event) = event else {
            return Ok(());
        };
        let is_known = self.scope.env(event, &name.text).is_some();
        fail_unless(self.alloc, is_known, name, out)
    }

    /// A guard of the event with that name.
    pub(crate) fn check_guard(
        &self,
        event: &Written,
        guard: &GuardTree,
        out: &mut List<Failure>,
    ) -> Result<(), Memory>
        ensures { OnOk result (out.new ≡ out.old
            ++ unknown_in_guard self.now.scope.now self.now.visible event.now guard.now) }
    {
        self.check_env(self.scope.event(&event.text), &guard.name, out)?;
        self.check_rhs(&guard.value, out)
    }
}
