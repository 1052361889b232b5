ghost use Rattle.std.specs.List.{list_all};
ghost use Rattle.std.specs.Prelude.{◌≡◌, ◌≤◌, IsTrue, Some, None, false, length, IfOk};
ghost use Rattle.sy_domain.specs.Checks.{domain_checks};
ghost use Rattle.sy_domain.specs.Failures.{Answers, fault_of};
ghost use Rattle.sy_domain.specs.Ontologies.{domain_of};
ghost use Rattle.sy_order.specs.Naming.{names_what_is_there};
ghost use Rattle.sy_order.specs.Nodes.{forms_of};
ghost use Rattle.sy_scope.specs.Scopes.{things_of};
ghost use Rattle.sy_typing.specs.Outlines as outlines;
ghost use Rattle.sy_typing.specs.Plans.{cycle_of, cycle_refusal, first_refusal, is_ordered, order_of_spec, spec_fault, text_refusals};

use crate::cycle::{first_place, words_of};
use crate::faults::text_fault;
use crate::outline::outline;
use crate::planned::Plan;
use std::alloc::Global;
use sy_base::{FaultName, FileKind, List, Memory, Refusal, Refused};
use sy_core::Deed;
use sy_domain::{Ontology, ontology};
use sy_order::{NodeIndex, evaluation_order};
use sy_scope::Scope;
use sy_spec::SpecTree;
use sy_strata::OrderFault;

/// The refusal of a specification whose nodes with these numbers need each other in a cycle.
fn refused_cycle(
    alloc: Global,
    tree: &SpecTree,
    outline: &Deed,
    index: &NodeIndex,
    cycle: &[u32],
) -> Result<Refusal, Memory>
    requires outlined { outline.now ≡ outlines.outline tree.now }
    requires numbered { index.now ≡ forms_of outline.now.positions }
    requires named { cycle.now ≡ cycle_of tree.now }
    requires cyclic { is_ordered tree.now ≡ false }
    ensures { IfOk result (λ refusal. cycle_refusal tree.now ≡ Some refusal) }
{
    Ok(Refusal {
        file: FileKind::Spec,
        place: first_place(alloc, &tree.contract, outline, index, cycle)?,
        name: FaultName::InstantCycle,
        words: words_of(alloc, outline, index, cycle)?,
    })
}

/// The order in which the nodes of a specification with this outline are evaluated.
fn evaluated(
    alloc: Global,
    tree: &SpecTree,
    outline: &Deed,
    index: &NodeIndex,
) -> Result<List<u32>, Refused>
    requires outlined { outline.now ≡ outlines.outline tree.now }
    requires numbered { index.now ≡ forms_of outline.now.positions }
    requires few { length outline.now.positions ≤ 500 }
    requires there { IsTrue (list_all (names_what_is_there outline.now) outline.now.positions) }
    ensures fault { Answers (cycle_refusal tree.now) result }
    ensures listed { IfOk result (λ order. order ≡ order_of_spec tree.now) }
{
    match evaluation_order(alloc, outline) {
        Ok(order) => Ok(order),
        Err(OrderFault::Cycle(cycle)) => {
            let refusal = refused_cycle(alloc, tree, outline, index, cycle.items())?;
            Err(Refused::Refusal(refusal))
        }
        Err(OrderFault::Memory) => Err(Refused::Memory),
    }
}

/// The plan of a specification of which only the order is still to be found.
fn with_order(alloc: Global, tree: SpecTree, scope: Scope) -> Result<Plan, Refused>
    requires scope { scope ≡ things_of tree }
    requires domain { fault_of (domain_checks tree) ≡ None }
    requires texts { first_refusal (text_refusals tree) ≡ None }
    ensures fault { Answers (spec_fault tree) result }
    ensures found { IfOk result (λ p. p ≡ tree) }
{
    let outline = outline(alloc, scope.ontology(), &tree)?;
    let index = NodeIndex::of_deed(alloc, &outline)?;
    match evaluated(alloc, &tree, &outline, &index) {
        Ok(order) => Ok(Plan::of(tree, scope, outline, index, order)),
        Err(why) => Err(why),
    }
}

/// The plan of a specification whose domain part has no fault.
fn with_types(alloc: Global, tree: SpecTree, types: Ontology) -> Result<Plan, Refused>
    requires types { types ≡ domain_of tree }
    requires domain { fault_of (domain_checks tree) ≡ None }
    ensures fault { Answers (spec_fault tree) result }
    ensures found { IfOk result (λ p. p ≡ tree) }
{
    let scope = Scope::of(alloc, types, &tree)?;
    match text_fault(alloc, &scope, &tree)? {
        Some(fault) => Err(Refused::Refusal(fault)),
        None => with_order(alloc, tree, scope),
    }
}

/// The plan of a specification.
///
/// # Errors
///
/// Its first fault, in the order of the checks: those of its domain part, then names that aren't
/// declared for their place (UnknownName), phrases that break the rules of types (WrongType), numbers
/// that are too great (NumberOutOfRange), dates that aren't and measures that are too fine or too
/// great, `holds` in a consequent (SituationInConsequent), more positions, events or atoms than may be
/// (TooMany), and nodes that need each other in a cycle (InstantCycle).
pub fn plan(alloc: Global, tree: SpecTree) -> Result<Plan, Refused>
    ensures fault { Answers (spec_fault tree) result }
    ensures found { IfOk result (λ p. p ≡ tree) }
{
    match ontology(alloc, &tree) {
        Ok(types) => with_types(alloc, tree, types),
        Err(why) => Err(why),
    }
}
