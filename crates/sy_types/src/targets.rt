ghost use Rattle.std.specs.Prelude.{◌≡◌, ◌++◌, OnOk};
ghost use Rattle.sy_core.specs.Soundness as soundness;
ghost use Rattle.sy_domain.specs.Failures.{unless};
ghost use Rattle.sy_lex.specs.Keywords.{keyword_text};
ghost use Rattle.sy_scope.specs.Tokens.{written};
ghost use Rattle.sy_spec.specs.Specifications as specifications;
ghost use Rattle.sy_tree.specs.Terms as grammar;
ghost use Rattle.sy_types.specs.Positions as positions;

use std::alloc::Global;
use sy_base::{List, Memory, Place};
use sy_core::{is_obligation, is_power};
use sy_domain::Failure;
use sy_lex::Keyword;
use sy_scope::{Scope, fail_at};
use sy_spec::ActTree;
use sy_tree::TargetTree;
use sy_words::{Form, Kind, Verb};

/// The word of a kind of internal event.
fn kind_word(kind: Kind) -> Keyword
    ensures { result ≡ grammar.kind_word kind }
{
    match kind {
        Kind::Exerted => Keyword::Exerted,
        Kind::Triggered => Keyword::Triggered,
        Kind::Activated => Keyword::Activated,
        Kind::Resumed => Keyword::Resumed,
        Kind::Suspended => Keyword::Suspended,
        Kind::Fulfilled => Keyword::Fulfilled,
        Kind::Violated => Keyword::Violated,
        Kind::Expired => Keyword::Expired,
        Kind::Discharged => Keyword::Discharged,
        Kind::Terminated => Keyword::Terminated,
        Kind::Completed => Keyword::Completed,
    }
}

/// The word of a verb.
fn verb_word(verb: Verb) -> Keyword
    ensures { result ≡ specifications.verb_word verb }
{
    match verb {
        Verb::Suspends => Keyword::Suspends,
        Verb::Resumes => Keyword::Resumes,
        Verb::Discharges => Keyword::Discharges,
        Verb::Terminates => Keyword::Terminates,
        Verb::Triggers => Keyword::Triggers,
    }
}

/// Puts the failure at a reserved word that stands there behind the others, unless all is well.
fn fail_unless_word(
    alloc: Global,
    well: bool,
    word: Keyword,
    place: Place,
    out: &mut List<Failure>,
) -> Result<(), Memory>
    ensures { OnOk result (out.new ≡ out.old ++ unless well (written (keyword_text word) place)) }
{
    if !well {
        out.push(fail_at(alloc, word.word(), place)?)?;
    }
    Ok(())
}

/// Whether a position of a form has internal events of a kind.
pub fn is_kind_of(form: Form, kind: Kind) -> bool
    ensures { result ≡ soundness.is_kind_of form kind }
{
    match kind {
        Kind::Exerted => is_power(form),
        Kind::Fulfilled | Kind::Violated | Kind::Discharged => is_obligation(form),
        Kind::Completed => false,
        _ => true,
    }
}

/// Whether the contract has internal events of a kind.
pub fn is_contract_kind(kind: Kind) -> bool
    ensures { result ≡ soundness.is_contract_kind kind }
{
    matches!(
        kind,
        Kind::Resumed | Kind::Suspended | Kind::Terminated | Kind::Completed
    )
}

/// Whether a verb can be done to a position of a form.
pub fn is_act_on(form: Form, verb: Verb) -> bool
    ensures { result ≡ soundness.is_act_on form verb }
{
    match verb {
        Verb::Discharges | Verb::Triggers => is_obligation(form),
        _ => true,
    }
}

/// Whether a verb can be done to the contract.
pub fn is_contract_act(verb: Verb) -> bool
    ensures { result ≡ soundness.is_contract_act verb }
{
    matches!(verb, Verb::Suspends | Verb::Resumes | Verb::Terminates)
}

/// Whether a target has internal events of a kind.
fn takes_kind(scope: &Scope, kind: Kind, target: &TargetTree) -> bool
    ensures { result ≡ positions.takes_kind scope.now kind target.now }
{
    match target {
        TargetTree::Contract(_) => is_contract_kind(kind),
        TargetTree::Named(name) => match scope.form(&name.text) {
            Some(form) => is_kind_of(form, kind),
            None => false,
        },
    }
}

/// Whether a verb can be done to a target.
fn takes_act(scope: &Scope, verb: Verb, target: &TargetTree) -> bool
    ensures { result ≡ positions.takes_act scope.now verb target.now }
{
    match target {
        TargetTree::Contract(_) => is_contract_act(verb),
        TargetTree::Named(name) => match scope.form(&name.text) {
            Some(form) => is_act_on(form, verb),
            None => false,
        },
    }
}

/// Finds an internal event whose target has none of its kind.
pub(crate) fn check_internal(
    alloc: Global,
    scope: &Scope,
    kind: Kind,
    place: Place,
    target: &TargetTree,
    out: &mut List<Failure>,
) -> Result<(), Memory>
    ensures { OnOk result (out.new ≡ out.old ++ positions.wrong_internal scope.now kind place target.now) }
{
    let well = takes_kind(scope, kind, target);
    fail_unless_word(alloc, well, kind_word(kind), place, out)
}

/// Finds an act that can't be done to its target.
pub(crate) fn check_act(
    alloc: Global,
    scope: &Scope,
    act: &ActTree,
    out: &mut List<Failure>,
) -> Result<(), Memory>
    ensures { OnOk result (out.new ≡ out.old ++ positions.wrong_act scope.now act.now) }
{
    let verb = act.verb.verb;
    let well = takes_act(scope, verb, &act.target);
    fail_unless_word(alloc, well, verb_word(verb), act.verb.place, out)
}
