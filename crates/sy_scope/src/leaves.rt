ghost use Rattle.std.specs.Prelude.{◌≡◌, ◌++◌, OnOk};

use sy_base::{List, Memory, Place};
use sy_domain::Failure;
use sy_lex::Written;
use sy_tree::{
    CmpTree, DurationTree, GuardTree, PathTree, RhsTree, SituationTree, TargetTree, TermTree,
};
use sy_words::Kind;

/// What a check finds in the parts of propositions. Each call puts what it finds behind the others.
pub trait Leaves {
    ghost use Rattle.sy_scope.specs.Walks.{Finds};

    /// What is found.
    ghost found: { Self → Finds };

    /// In a comparison.
    fn comparison(
        &self,
        left: &TermTree,
        cmp: &CmpTree,
        right: &RhsTree,
        out: &mut List<Failure>,
    ) -> Result<(), Memory>
        ensures { OnOk result (out.new ≡ out.old ++ (found self.now).comparison left.now cmp.now right.now) };

    /// In the name of a declared event that is said to happen.
    fn happening(&self, name: &Written, out: &mut List<Failure>) -> Result<(), Memory>
        ensures { OnOk result (out.new ≡ out.old ++ (found self.now).happening name.now) };

    /// In a guard of the event with that name.
    fn guard(
        &self,
        event: &Written,
        guard: &GuardTree,
        out: &mut List<Failure>,
    ) -> Result<(), Memory>
        ensures { OnOk result (out.new ≡ out.old ++ (found self.now).guard event.now guard.now) };

    /// In an internal event, whose kind stands there.
    fn internal(
        &self,
        kind: Kind,
        place: Place,
        target: &TargetTree,
        out: &mut List<Failure>,
    ) -> Result<(), Memory>
        ensures { OnOk result (out.new ≡ out.old ++ (found self.now).internal kind place target.now) };

    /// In what is said of a state.
    fn situation(&self, situation: &SituationTree, out: &mut List<Failure>) -> Result<(), Memory>
        ensures { OnOk result (out.new ≡ out.old ++ (found self.now).situation situation.now) };

    /// In a date that begins a date term.
    fn fixed(&self, date: &Written, out: &mut List<Failure>) -> Result<(), Memory>
        ensures { OnOk result (out.new ≡ out.old ++ (found self.now).fixed date.now) };

    /// In a path that begins a date term.
    fn path(&self, path: &PathTree, out: &mut List<Failure>) -> Result<(), Memory>
        ensures { OnOk result (out.new ≡ out.old ++ (found self.now).path path.now) };

    /// In a duration.
    fn duration(&self, duration: &DurationTree, out: &mut List<Failure>) -> Result<(), Memory>
        ensures { OnOk result (out.new ≡ out.old ++ (found self.now).duration duration.now) };
}
