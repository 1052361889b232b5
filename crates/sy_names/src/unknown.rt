ghost use Rattle.std.specs.Prelude.{◌≡◌, ◌++◌, IfOk, OnOk};
ghost use Rattle.std.specs.List.{flat_map};
ghost use Rattle.sy_names.specs.UnknownNames as names;
ghost use Rattle.sy_names.specs.UnknownNames.{unknown_in_contract, unknown_in_obligation, unknown_in_power};

use crate::declarations::check_declarations;
use crate::uses::Uses;
use std::alloc::Global;
use sy_base::{List, Memory};
use sy_domain::Failure;
use sy_scope::{Scope, walk_contract};
use sy_spec::{ContractTree, ObligTree, PowerTree, SpecTree};

impl<'a> Uses<'a> {
    /// The debtors and the creditors of obligations.
    fn check_obligations(
        &self,
        obligations: &[ObligTree],
        out: &mut List<Failure>,
    ) -> Result<(), Memory>
        ensures { OnOk result (out.new ≡ out.old
            ++ flat_map (unknown_in_obligation self.now.scope.now self.now.visible) obligations.now) }
    {
        'obligation: for obligation in obligations {
            self.check_thing(&obligation.debtor, out)?;
            self.check_thing(&obligation.creditor, out)?;
        }
        Ok(())
    }

    /// The holders, the other parties and the targets of powers.
    fn check_powers(&self, powers: &[PowerTree], out: &mut List<Failure>) -> Result<(), Memory>
        ensures { OnOk result (out.new ≡ out.old
            ++ flat_map (unknown_in_power self.now.scope.now self.now.visible) powers.now) }
    {
        'power: for power in powers {
            self.check_thing(&power.holder, out)?;
            self.check_thing(&power.other_party, out)?;
            self.check_target(&power.act.target, out)?;
        }
        Ok(())
    }

    /// The positions and the propositions of a contract.
    fn check_contract(&self, contract: &ContractTree, out: &mut List<Failure>) -> Result<(), Memory>
        ensures { OnOk result (out.new ≡ out.old
            ++ unknown_in_contract self.now.scope.now self.now.visible contract.now) }
    {
        self.check_obligations(contract.obligations.items(), out)?;
        self.check_obligations(contract.surviving.items(), out)?;
        self.check_powers(contract.powers.items(), out)?;
        walk_contract(self, contract, out)
    }
}

/// Finds the names that are used in a specification and aren't declared for their place, in no
/// particular order.
///
/// # Errors
///
/// Only for want of memory.
pub fn unknown_names(alloc: Global, scope: &Scope, tree: &SpecTree) -> Result<List<Failure>, Memory>
    ensures { IfOk result (λ found. found ≡ names.unknown_names scope.now tree.now) }
{
    let uses = Uses {
        alloc,
        scope,
        visible: scope.declarations().len(),
    };
    let mut out = List::new(alloc);
    check_declarations(alloc, scope, tree.contract.declarations.items(), &mut out)?;
    uses.check_contract(&tree.contract, &mut out)?;
    Ok(out)
}
