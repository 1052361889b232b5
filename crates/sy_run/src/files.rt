ghost use Rattle.std.specs.Prelude.{◌≡◌, ◌<◌, ◌^◌, ℕ, List, length, IsTrue, IfOk, Ok, Some};
ghost use Rattle.std.specs.declared.option.Option.{Option};
ghost use Rattle.sy_outside.specs.Outside.{CauseOf};
ghost use Rattle.sy_base.specs.declared.refusal.FileKind.TheVariants as kind;
ghost use Rattle.sy_core.specs.Soundness.{IsSound};
ghost use Rattle.sy_binding.specs.Spelling.{SpellsBinding};
ghost use Rattle.sy_spec.specs.Spelling.{SpellsSpec};
ghost use Rattle.sy_run.specs.Machine.Stopping.{IsToldAs, NoReadStop, is_read_stop};
ghost use Rattle.sy_run.specs.Texts.{IsBindingIn, IsDeedIn, IsSoundSpecIn, IsSpecIn, IsTree, bound, bytes_in, checked};

use crate::stop::Stop;
use std::alloc::Global;
use sy_base::{FaultName, FileKind, Text};
use sy_bind::deed;
use sy_binding::{BindTree, binding};
use sy_core::Deed;
use sy_lex::tokens;
use sy_outside::{FileFault, Files, read_file};
use sy_report::whole;
use sy_spec::{SpecTree, spec};
use sy_typing::{Plan, plan};

/// The bytes of a file.
fn read_text<F: Files>(
    alloc: Global,
    files: &mut F,
    name: &Text,
    file: FileKind,
) -> Result<Text, Stop>
    requires { IsTrue (F.lent files.old name.now) }
    ensures told { (told : Option (List ℕ)) → F.told files.old name.now ≡ Some told
        → IsToldAs (λ bytes. bytes ≡ bytes_in file told) result }
    ensures few { IfOk result (λ text. length text < 2 ^ 32) }
    ensures cause { CauseOf is_read_stop (F.faults files.old) (F.faults files.new) result }
    ensures lent { (n : List ℕ) → F.lent files.new n ≡ F.lent files.old n }
    ensures tells { (n : List ℕ) → F.told files.new n ≡ F.told files.old n }
{
    match read_file(alloc, files, name) {
        Ok(text) => Ok(text),
        Err(FileFault::ReadFault) => Err(Stop::ReadFault),
        Err(FileFault::TooBig) => Err(Stop::Refused(whole(alloc, file, FaultName::TooBig))),
        Err(FileFault::Memory) => Err(Stop::Memory),
    }
}

/// The specification of these bytes.
fn spec_of(alloc: Global, bytes: &[u8]) -> Result<SpecTree, Stop>
    requires few { length bytes.now < 2 ^ 32 }
    ensures told { IsToldAs (IsTree kind.Spec SpellsSpec bytes.now) result }
    ensures cause { NoReadStop result }
{
    let tokens = tokens(alloc, FileKind::Spec, bytes)?;
    Ok(spec(alloc, bytes, tokens.items())?)
}

/// The binding of these bytes.
fn binding_of(alloc: Global, bytes: &[u8]) -> Result<BindTree, Stop>
    requires few { length bytes.now < 2 ^ 32 }
    ensures told { IsToldAs (IsTree kind.Bind SpellsBinding bytes.now) result }
    ensures cause { NoReadStop result }
{
    let tokens = tokens(alloc, FileKind::Bind, bytes)?;
    Ok(binding(alloc, bytes, tokens.items())?)
}

/// The specification in a file.
fn read_spec<F: Files>(alloc: Global, files: &mut F, name: &Text) -> Result<SpecTree, Stop>
    requires { IsTrue (F.lent files.old name.now) }
    ensures told { (told : Option (List ℕ)) → F.told files.old name.now ≡ Some told → IsToldAs (IsSpecIn told) result }
    ensures cause { CauseOf is_read_stop (F.faults files.old) (F.faults files.new) result }
    ensures lent { (n : List ℕ) → F.lent files.new n ≡ F.lent files.old n }
    ensures tells { (n : List ℕ) → F.told files.new n ≡ F.told files.old n }
{
    let text = read_text(alloc, files, name, FileKind::Spec)?;
    spec_of(alloc, text.bytes())
}

/// The plan of a specification that was read.
fn plan_of(alloc: Global, tree: SpecTree) -> Result<Plan, Stop>
    ensures told { IsToldAs (λ plan. plan ≡ checked (Ok tree)) result }
    ensures cause { NoReadStop result }
{
    match plan(alloc, tree) {
        Ok(plan) => Ok(plan),
        Err(why) => Err(Stop::from(why)),
    }
}

/// The plan of the specification in a file, where it has no fault.
pub(crate) fn read_plan<F: Files>(alloc: Global, files: &mut F, name: &Text) -> Result<Plan, Stop>
    requires { IsTrue (F.lent files.old name.now) }
    ensures told { (told : Option (List ℕ)) → F.told files.old name.now ≡ Some told → IsToldAs (IsSoundSpecIn told) result }
    ensures cause { CauseOf is_read_stop (F.faults files.old) (F.faults files.new) result }
    ensures lent { (n : List ℕ) → F.lent files.new n ≡ F.lent files.old n }
    ensures tells { (n : List ℕ) → F.told files.new n ≡ F.told files.old n }
{
    match read_spec(alloc, files, name) {
        Ok(tree) => plan_of(alloc, tree),
        Err(why) => Err(why),
    }
}

/// The binding in a file.
fn read_binding<F: Files>(alloc: Global, files: &mut F, name: &Text) -> Result<BindTree, Stop>
    requires { IsTrue (F.lent files.old name.now) }
    ensures told { (told : Option (List ℕ)) → F.told files.old name.now ≡ Some told → IsToldAs (IsBindingIn told) result }
    ensures cause { CauseOf is_read_stop (F.faults files.old) (F.faults files.new) result }
{
    let text = read_text(alloc, files, name, FileKind::Bind)?;
    binding_of(alloc, text.bytes())
}

/// The deed of an accepted specification and a binding that was read.
fn deed_of(alloc: Global, plan: &Plan, tree: &BindTree) -> Result<Deed, Stop>
    ensures told { IsToldAs (λ deed. deed ≡ bound plan.now (Ok tree.now)) result }
    ensures sound { IfOk result IsSound }
    ensures cause { NoReadStop result }
{
    match deed(alloc, plan, tree) {
        Ok(deed) => Ok(deed),
        Err(why) => Err(Stop::from(why)),
    }
}

/// The deed of a specification and its binding. The binding is read only once the specification is
/// accepted.
pub(crate) fn read_deed<F: Files>(
    alloc: Global,
    files: &mut F,
    spec: &Text,
    bind: &Text,
) -> Result<Deed, Stop>
    requires spec { IsTrue (F.lent files.old spec.now) }
    requires bind { IsTrue (F.lent files.old bind.now) }
    ensures told { (s b : Option (List ℕ)) → F.told files.old spec.now ≡ Some s → F.told files.old bind.now ≡ Some b → IsToldAs (IsDeedIn s b) result }
    ensures sound { IfOk result IsSound }
    ensures cause { CauseOf is_read_stop (F.faults files.old) (F.faults files.new) result }
{
    let plan = read_plan(alloc, files, spec)?;
    let tree = read_binding(alloc, files, bind)?;
    deed_of(alloc, &plan, &tree)
}
