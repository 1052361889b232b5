ghost use Rattle.std.specs.Prelude.{◌≡◌, ◌++◌, ◌-◌, ◌^◌, ◌≤◌, map, min, IfOk, OnOk};
ghost use Rattle.std.specs.List.{flat_map, sum, sum_by};
ghost use Rattle.sy_scope.specs.Scopes as scopes;
ghost use Rattle.sy_scope.specs.Walks.{obligation_propositions, power_propositions, written_trigger};
ghost use Rattle.sy_literal.specs.Limits as limits;

use std::alloc::Global;
use sy_base::{List, Memory, Text};
use sy_domain::{Failure, Sort, TypeKind};
use sy_scope::Scope;
use sy_spec::{ContractTree, ObligTree, PowerTree, SpecTree};
use sy_tree::{DateTree, MomentTree, PropTree};

/// How many positions a contract has; at most the greatest `usize`.
fn position_count(contract: &ContractTree) -> usize
    ensures { result ≡ min (limits.position_count contract.now) (2 ^ 64 - 1) }
{
    let obligations = contract.obligations.items().len();
    let surviving = contract.surviving.items().len();
    obligations
        .saturating_add(surviving)
        .saturating_add(contract.powers.items().len())
}

/// Whether things of a sort are events.
fn is_event_sort(scope: &Scope, sort: Sort) -> bool
    ensures { result ≡ limits.is_event_sort scope.now sort }
{
    matches!(scope.kind(sort), Some(TypeKind::Event))
}

/// How many events are declared.
fn event_count(scope: &Scope) -> usize
    ensures { result ≡ limits.event_count scope.now }
{
    scope
        .declarations()
        .iter()
        .filter(|sort| is_event_sort(scope, **sort))
        .count()
}

/// The atoms of a date term.
fn date_atoms(date: &DateTree) -> usize
    ensures value { result ≡ limits.date_atoms date.now }
    ensures bound { result ≤ 1 }
{
    match date.moment {
        MomentTree::Time(_, _) => 1,
        _ => 0,
    }
}

/// How many atoms some propositions have; at most the greatest `usize`.
#[cycle(counting)]
fn atoms_of_all(parts: &[PropTree]) -> usize
    ensures { result ≡ min (sum (map limits.atoms parts.now)) (2 ^ 64 - 1) }
{
    let mut count: usize = 0;
    'part: for part in parts {
        count = count.saturating_add(atoms(part));
    }
    count
}

/// How many atoms a proposition has; at most the greatest `usize`.
#[cycle(counting)]
fn atoms(tree: &PropTree) -> usize
    ensures { result ≡ min (limits.atoms tree.now) (2 ^ 64 - 1) }
{
    match tree {
        PropTree::Const(_, _) | PropTree::Compare(_, _, _, _) => 0,
        PropTree::Not(part, _) => atoms(part.get()),
        PropTree::All(parts, _) => atoms_of_all(parts.as_slice()),
        PropTree::Any(parts, _) => atoms_of_all(parts.as_slice()),
        PropTree::Happens(_, _) | PropTree::Holds(_, _) => 1,
        PropTree::Before(_, date, _) | PropTree::After(_, date, _) => 1 + date_atoms(date),
        PropTree::Within(_, from, to, _) | PropTree::Occurs(_, from, to, _) => {
            1 + date_atoms(from) + date_atoms(to)
        }
    }
}

/// The atoms of a trigger, where it isn't left out.
fn trigger_atoms(trigger: &Option<PropTree>) -> usize
    ensures { result ≡ min (sum_by limits.atoms (written_trigger trigger.now)) (2 ^ 64 - 1) }
{
    match trigger {
        Some(trigger) => atoms(trigger),
        None => 0,
    }
}

fn obligation_atoms(obligation: &ObligTree) -> usize
    ensures { result ≡ min (sum_by limits.atoms (obligation_propositions obligation.now)) (2 ^ 64 - 1) }
{
    trigger_atoms(&obligation.trigger)
        .saturating_add(atoms(&obligation.antecedent))
        .saturating_add(atoms(&obligation.consequent))
}

fn obligations_atoms(obligations: &[ObligTree]) -> usize
    ensures { result ≡ min (sum_by limits.atoms (flat_map obligation_propositions obligations.now)) (2 ^ 64 - 1) }
{
    let mut count: usize = 0;
    'obligation: for obligation in obligations {
        count = count.saturating_add(obligation_atoms(obligation));
    }
    count
}

fn power_atoms(power: &PowerTree) -> usize
    ensures { result ≡ min (sum_by limits.atoms (power_propositions power.now)) (2 ^ 64 - 1) }
{
    trigger_atoms(&power.trigger).saturating_add(atoms(&power.antecedent))
}

fn powers_atoms(powers: &[PowerTree]) -> usize
    ensures { result ≡ min (sum_by limits.atoms (flat_map power_propositions powers.now)) (2 ^ 64 - 1) }
{
    let mut count: usize = 0;
    'power: for power in powers {
        count = count.saturating_add(power_atoms(power));
    }
    count
}

/// How many atoms a contract has; at most the greatest `usize`.
fn atom_count(contract: &ContractTree) -> usize
    ensures { result ≡ min (limits.atom_count contract.now) (2 ^ 64 - 1) }
{
    atoms_of_all(contract.postconditions.items())
        .saturating_add(obligations_atoms(contract.obligations.items()))
        .saturating_add(obligations_atoms(contract.surviving.items()))
        .saturating_add(powers_atoms(contract.powers.items()))
}

/// Puts the failure of a count behind the others, where it is above its limit.
fn check_count(
    alloc: Global,
    word: &[u8],
    limit: usize,
    count: usize,
    out: &mut List<Failure>,
) -> Result<(), Memory>
    ensures { OnOk result (out.new ≡ out.old ++ limits.too_many word.now limit count) }
{
    if count > limit {
        out.push(Failure {
            place: None,
            words: Text::new(alloc, word)?,
        })?;
    }
    Ok(())
}

/// The limits that a specification passes: of positions, of declared events and of atoms, in this
/// order.
pub fn limits_passed(alloc: Global, scope: &Scope, tree: &SpecTree) -> Result<List<Failure>, Memory>
    ensures { IfOk result (λ found. found ≡ limits.passed scope.now tree.now.contract) }
{
    let mut out = List::new(alloc);
    let contract = &tree.contract;
    check_count(alloc, b"positions", 500, position_count(contract), &mut out)?;
    check_count(alloc, b"events", 500, event_count(scope), &mut out)?;
    check_count(alloc, b"atoms", 4000, atom_count(contract), &mut out)?;
    Ok(out)
}
