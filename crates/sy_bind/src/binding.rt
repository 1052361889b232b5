ghost use Rattle.std.specs.Prelude.{◌≡◌, IfOk, IsTrue};
ghost use Rattle.sy_base.specs.Points.{IsDated};
ghost use Rattle.sy_parts.specs.Counts.{has_few_parts};
ghost use Rattle.sy_core.specs.Soundness.{IsSound};
ghost use Rattle.sy_domain.specs.Failures.{Answers};
ghost use Rattle.sy_bind.specs.Deeds as deeds;
ghost use Rattle.sy_bind.specs.Deeds.{bind_fault, deed_of, environment_under};

use std::alloc::Global;
use sy_base::{List, Memory, Point, Refusal, Refused, Text, TimeUnit};
use sy_binding::BindTree;
use sy_core::Deed;
use sy_events::Declared;
use sy_given::{binding_fault, bound_values};
use sy_literal::date;
use sy_lower::Lowering;
use sy_parts::has_few_parts;
use sy_terms::{Environment, values_fault};
use sy_typing::Plan;

/// What is known of the names of a specification under a binding.
fn environment(alloc: Global, plan: &Plan, tree: &BindTree) -> Result<Environment, Memory>
    ensures { IfOk result (λ e. e ≡ environment_under plan.now tree.now) }
{
    let bounds = bound_values(alloc, plan.scope(), plan.tree(), tree)?;
    Environment::of(alloc, plan.scope(), plan.tree(), bounds)
}

/// The fault of a binding, if it has one.
#[tactic(auto, unfolding(crate::specs::Deeds::bind_fault))]
fn fault(
    alloc: Global,
    plan: &Plan,
    environment: &Environment,
    tree: &BindTree,
) -> Result<Option<Refusal>, Memory>
    requires { environment.now ≡ environment_under plan.now tree.now }
    ensures { IfOk result (λ r. r ≡ bind_fault plan.now tree.now) }
{
    match binding_fault(alloc, plan.scope(), plan.tree(), tree)? {
        Some(fault) => Ok(Some(fault)),
        None => Ok(values_fault(alloc, plan.scope(), environment, plan.tree())?),
    }
}

/// The first point of a contract.
fn start(unit: TimeUnit, text: &Text) -> Point
    ensures value { result ≡ deeds.start_of unit text.now }
    ensures dated { IsDated unit result }
{
    match date(unit, text) {
        Some(point) => point,
        None => 0,
    }
}

/// A list with the same numbers.
fn copied(alloc: Global, numbers: &[u32]) -> Result<List<u32>, Memory>
    ensures { IfOk result (λ list. list ≡ numbers.now) }
{
    let mut list = List::new(alloc);
    'number: for number in numbers {
        list.push(*number)?;
    }
    Ok(list)
}

/// The deed of a specification and a binding of which this is known.
#[tactic(auto, unfolding(crate::specs::Deeds::deed_of))]
fn lowered(
    alloc: Global,
    plan: &Plan,
    environment: &Environment,
    tree: &BindTree,
) -> Result<Deed, Memory>
    requires { environment.now ≡ environment_under plan.now tree.now }
    ensures found { IfOk result (λ d. d ≡ deed_of plan.now tree.now) }
    ensures sound { IfOk result (λ d. IsTrue (has_few_parts d) → IsSound d) }
{
    let spec = plan.tree();
    let declared = Declared::of(alloc, plan.scope(), spec)?;
    let lowering = Lowering::of(alloc, plan.scope(), &spec.contract, environment, &declared);
    let positions = lowering.positions()?;
    let posts = lowering.postconditions()?;
    let order = copied(alloc, plan.order())?;
    let (events, choices) = declared.into_parts();
    let unit = spec.contract.unit.unit;
    Ok(Deed {
        unit,
        start: start(unit, &tree.start.text),
        events,
        choices,
        positions,
        posts,
        order,
    })
}

/// The deed of a specification and a binding. One of 2^32 or more propositions, guards, date terms or
/// other parts is wanting memory.
///
/// # Errors
///
/// The first fault of the binding, in the order of the checks: a name that is bound twice
/// (DuplicateParam), a name that is no parameter or attribute (ExtraParam), one that isn't bound
/// (MissingParam), a value that isn't of its type (WrongParamType), a date that the unit doesn't have
/// (BadDate), a number above 10^15 (NumberOutOfRange); then, in the specification, a term or a bound
/// count out of its range (NumberOutOfRange), a precondition that is false (PreconditionFalse) and a
/// constraint that is (ConstraintFalse).
pub fn deed(alloc: Global, plan: &Plan, tree: &BindTree) -> Result<Deed, Refused>
    ensures fault { Answers (bind_fault plan.now tree.now) result }
    ensures found { IfOk result (λ d. d ≡ deed_of plan.now tree.now) }
    ensures sound { IfOk result (λ d. IsSound d) }
{
    let environment = environment(alloc, plan, tree)?;
    if let Some(fault) = fault(alloc, plan, &environment, tree)? {
        return Err(Refused::Refusal(fault));
    }
    let deed = lowered(alloc, plan, &environment, tree)?;
    if has_few_parts(&deed) {
        Ok(deed)
    } else {
        Err(Refused::Memory)
    }
}
