ghost use Rattle.std.specs.Prelude.{◌≡◌, ◌++◌, OnOk};
ghost use Rattle.std.specs.List.{flat_map};
ghost use Rattle.sy_types.specs.Positions as positions;

use crate::targets::check_act;
use std::alloc::Global;
use sy_base::{List, Memory};
use sy_domain::{Failure, Sort, TypeKind, fail_unless};
use sy_lex::Written;
use sy_scope::Scope;
use sy_spec::{ContractTree, ObligTree, PowerTree};

/// Whether the thing that is there is a role.
fn is_role_there(scope: &Scope, sort: Option<Sort>) -> bool
    ensures { result ≡ positions.is_role_there scope.now sort }
{
    match sort {
        Some(sort) => matches!(scope.kind(sort), Some(TypeKind::Role)),
        None => false,
    }
}

/// Finds a debtor, a creditor, a holder or an other party that is no role.
fn check_party(
    alloc: Global,
    scope: &Scope,
    visible: usize,
    name: &Written,
    out: &mut List<Failure>,
) -> Result<(), Memory>
    ensures { OnOk result (out.new ≡ out.old ++ positions.wrong_party scope.now visible name.now) }
{
    let well = is_role_there(scope, scope.thing(visible, &name.text));
    fail_unless(alloc, well, name, out)
}

fn check_obligation(
    alloc: Global,
    scope: &Scope,
    visible: usize,
    obligation: &ObligTree,
    out: &mut List<Failure>,
) -> Result<(), Memory>
    ensures { OnOk result (out.new ≡ out.old
        ++ positions.wrong_obligation scope.now visible obligation.now) }
{
    check_party(alloc, scope, visible, &obligation.debtor, out)?;
    check_party(alloc, scope, visible, &obligation.creditor, out)
}

/// Finds what is wrong with the parties of obligations.
fn check_obligations(
    alloc: Global,
    scope: &Scope,
    visible: usize,
    obligations: &[ObligTree],
    out: &mut List<Failure>,
) -> Result<(), Memory>
    ensures { OnOk result (out.new ≡ out.old
        ++ flat_map (positions.wrong_obligation scope.now visible) obligations.now) }
{
    'obligation: for obligation in obligations {
        check_obligation(alloc, scope, visible, obligation, out)?;
    }
    Ok(())
}

fn check_power(
    alloc: Global,
    scope: &Scope,
    visible: usize,
    power: &PowerTree,
    out: &mut List<Failure>,
) -> Result<(), Memory>
    ensures { OnOk result (out.new ≡ out.old ++ positions.wrong_power scope.now visible power.now) }
{
    check_party(alloc, scope, visible, &power.holder, out)?;
    check_party(alloc, scope, visible, &power.other_party, out)?;
    check_act(alloc, scope, &power.act, out)
}

/// Finds what is wrong with the parties and the acts of powers.
fn check_powers(
    alloc: Global,
    scope: &Scope,
    visible: usize,
    powers: &[PowerTree],
    out: &mut List<Failure>,
) -> Result<(), Memory>
    ensures { OnOk result (out.new ≡ out.old
        ++ flat_map (positions.wrong_power scope.now visible) powers.now) }
{
    'power: for power in powers {
        check_power(alloc, scope, visible, power, out)?;
    }
    Ok(())
}

/// Finds what is wrong with the parties of positions, and with the acts of powers.
pub(crate) fn check_positions(
    alloc: Global,
    scope: &Scope,
    visible: usize,
    contract: &ContractTree,
    out: &mut List<Failure>,
) -> Result<(), Memory>
    ensures { OnOk result (out.new ≡ out.old
        ++ positions.wrong_positions scope.now visible contract.now) }
{
    check_obligations(alloc, scope, visible, contract.obligations.items(), out)?;
    check_obligations(alloc, scope, visible, contract.surviving.items(), out)?;
    check_powers(alloc, scope, visible, contract.powers.items(), out)
}
