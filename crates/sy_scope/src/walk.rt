ghost use Rattle.std.specs.Prelude.{◌≡◌, ◌++◌, map, OnOk};
ghost use Rattle.std.specs.List.{flat_map};
ghost use Rattle.sy_scope.specs.Walks.{date_finds, event_finds, finds, found_in, moment_finds, obligation_propositions, power_propositions, written_trigger};

use crate::Leaves;
use sy_base::{List, Memory};
use sy_domain::Failure;
use sy_lex::Written;
use sy_spec::{ContractTree, ObligTree, PowerTree};
use sy_tree::{DateTree, DurationTree, EventTree, GuardTree, MomentTree, PropTree};

/// Goes through the guards of an event.
fn walk_guards<L: Leaves>(
    leaves: &L,
    event: &Written,
    guards: &[GuardTree],
    out: &mut List<Failure>,
) -> Result<(), Memory>
    ensures { OnOk result (out.new ≡ out.old ++ flat_map ((L.found leaves.now).guard event.now) guards.now) }
{
    'guard: for guard in guards {
        leaves.guard(event, guard, out)?;
    }
    Ok(())
}

/// Goes through an event.
fn walk_event<L: Leaves>(
    leaves: &L,
    event: &EventTree,
    out: &mut List<Failure>,
) -> Result<(), Memory>
    ensures { OnOk result (out.new ≡ out.old ++ event_finds (L.found leaves.now) event.now) }
{
    match event {
        EventTree::Declared(name, guards) => {
            leaves.happening(name, out)?;
            walk_guards(leaves, name, guards.items(), out)
        }
        EventTree::Internal(kind, place, target) => leaves.internal(*kind, *place, target, out),
    }
}

/// Goes through the beginning of a date term.
fn walk_moment<L: Leaves>(
    leaves: &L,
    moment: &MomentTree,
    out: &mut List<Failure>,
) -> Result<(), Memory>
    ensures { OnOk result (out.new ≡ out.old ++ moment_finds (L.found leaves.now) moment.now) }
{
    match moment {
        MomentTree::Fixed(date) => leaves.fixed(date, out),
        MomentTree::Path(path) => leaves.path(path, out),
        MomentTree::Time(_, event) => walk_event(leaves, event, out),
    }
}

/// Goes through durations.
fn walk_durations<L: Leaves>(
    leaves: &L,
    durations: &[DurationTree],
    out: &mut List<Failure>,
) -> Result<(), Memory>
    ensures { OnOk result (out.new ≡ out.old ++ flat_map (L.found leaves.now).duration durations.now) }
{
    'duration: for duration in durations {
        leaves.duration(duration, out)?;
    }
    Ok(())
}

/// Goes through a date term.
fn walk_date<L: Leaves>(leaves: &L, date: &DateTree, out: &mut List<Failure>) -> Result<(), Memory>
    ensures { OnOk result (out.new ≡ out.old ++ date_finds (L.found leaves.now) date.now) }
{
    walk_moment(leaves, &date.moment, out)?;
    walk_durations(leaves, date.plus.items(), out)
}

/// Goes through propositions.
#[cycle(walking)]
fn walk_each<L: Leaves>(
    leaves: &L,
    parts: &[PropTree],
    out: &mut List<Failure>,
) -> Result<(), Memory>
    ensures { OnOk result (out.new ≡ out.old ++ flat_map (λ part. part) (map (finds (L.found leaves.now)) parts.now)) }
{
    'part: for part in parts {
        walk_proposition(leaves, part, out)?;
    }
    Ok(())
}

/// Goes through a proposition, from left to right.
#[cycle(walking)]
pub fn walk_proposition<L: Leaves>(
    leaves: &L,
    tree: &PropTree,
    out: &mut List<Failure>,
) -> Result<(), Memory>
    ensures { OnOk result (out.new ≡ out.old ++ finds (L.found leaves.now) tree.now) }
{
    match tree {
        PropTree::Const(_, _) => Ok(()),
        PropTree::Not(part, _) => walk_proposition(leaves, part.get(), out),
        PropTree::All(parts, _) => walk_each(leaves, parts.as_slice(), out),
        PropTree::Any(parts, _) => walk_each(leaves, parts.as_slice(), out),
        PropTree::Compare(left, cmp, right, _) => leaves.comparison(left, cmp, right, out),
        PropTree::Happens(event, _) => walk_event(leaves, event, out),
        PropTree::Before(event, date, _) | PropTree::After(event, date, _) => {
            walk_event(leaves, event, out)?;
            walk_date(leaves, date, out)
        }
        PropTree::Within(event, from, to, _) => {
            walk_event(leaves, event, out)?;
            walk_date(leaves, from, out)?;
            walk_date(leaves, to, out)
        }
        PropTree::Occurs(situation, from, to, _) => {
            leaves.situation(situation, out)?;
            walk_date(leaves, from, out)?;
            walk_date(leaves, to, out)
        }
        PropTree::Holds(situation, _) => leaves.situation(situation, out),
    }
}

/// Goes through the propositions of a section.
fn walk_section<L: Leaves>(
    leaves: &L,
    propositions: &[PropTree],
    out: &mut List<Failure>,
) -> Result<(), Memory>
    ensures { OnOk result (out.new ≡ out.old ++ flat_map (finds (L.found leaves.now)) propositions.now) }
{
    'proposition: for proposition in propositions {
        walk_proposition(leaves, proposition, out)?;
    }
    Ok(())
}

/// Goes through a trigger, where it isn't left out.
fn walk_trigger<L: Leaves>(
    leaves: &L,
    trigger: &Option<PropTree>,
    out: &mut List<Failure>,
) -> Result<(), Memory>
    ensures { OnOk result (out.new ≡ out.old ++ flat_map (finds (L.found leaves.now)) (written_trigger trigger.now)) }
{
    match trigger {
        Some(trigger) => walk_proposition(leaves, trigger, out),
        None => Ok(()),
    }
}

/// Goes through an obligation.
fn walk_obligation<L: Leaves>(
    leaves: &L,
    obligation: &ObligTree,
    out: &mut List<Failure>,
) -> Result<(), Memory>
    ensures { OnOk result (out.new ≡ out.old ++ flat_map (finds (L.found leaves.now)) (obligation_propositions obligation.now)) }
{
    walk_trigger(leaves, &obligation.trigger, out)?;
    walk_proposition(leaves, &obligation.antecedent, out)?;
    walk_proposition(leaves, &obligation.consequent, out)
}

/// Goes through obligations.
fn walk_obligations<L: Leaves>(
    leaves: &L,
    obligations: &[ObligTree],
    out: &mut List<Failure>,
) -> Result<(), Memory>
    ensures { OnOk result (out.new ≡ out.old ++ flat_map (finds (L.found leaves.now)) (flat_map obligation_propositions obligations.now)) }
{
    'obligation: for obligation in obligations {
        walk_obligation(leaves, obligation, out)?;
    }
    Ok(())
}

/// Goes through a power.
fn walk_power<L: Leaves>(
    leaves: &L,
    power: &PowerTree,
    out: &mut List<Failure>,
) -> Result<(), Memory>
    ensures { OnOk result (out.new ≡ out.old ++ flat_map (finds (L.found leaves.now)) (power_propositions power.now)) }
{
    walk_trigger(leaves, &power.trigger, out)?;
    walk_proposition(leaves, &power.antecedent, out)
}

/// Goes through powers.
fn walk_powers<L: Leaves>(
    leaves: &L,
    powers: &[PowerTree],
    out: &mut List<Failure>,
) -> Result<(), Memory>
    ensures { OnOk result (out.new ≡ out.old ++ flat_map (finds (L.found leaves.now)) (flat_map power_propositions powers.now)) }
{
    'power: for power in powers {
        walk_power(leaves, power, out)?;
    }
    Ok(())
}

/// Goes through all propositions of a contract, and puts what is found behind the others.
pub fn walk_contract<L: Leaves>(
    leaves: &L,
    contract: &ContractTree,
    out: &mut List<Failure>,
) -> Result<(), Memory>
    ensures { OnOk result (out.new ≡ out.old ++ found_in (L.found leaves.now) contract.now) }
{
    walk_section(leaves, contract.preconditions.items(), out)?;
    walk_section(leaves, contract.postconditions.items(), out)?;
    walk_obligations(leaves, contract.obligations.items(), out)?;
    walk_obligations(leaves, contract.surviving.items(), out)?;
    walk_powers(leaves, contract.powers.items(), out)?;
    walk_section(leaves, contract.constraints.items(), out)?;
    Ok(())
}
