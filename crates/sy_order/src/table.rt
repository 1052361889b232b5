ghost use Rattle.std.specs.Prelude.{◌≡◌, ◌≤◌, ◌<◌, ◌++◌, map, length, slice_get, Some, None, MatchOption, IfOk, OnOk};
ghost use Rattle.sy_core.specs.declared.kind.Target.TheVariants as at;
ghost use Rattle.sy_core.specs.Conditions.{remedies_of};
ghost use Rattle.sy_core.specs.Prerequisites.{exerts, exerts_on_contract};

use crate::node::{Node, Nodes};
use crate::power::{Power, powers_on_contract, powers_on_positions, push_exertions};
use crate::remedy::remedies;
use std::alloc::Global;
use std::marker::Model;
use sy_base::{List, Memory};
use sy_core::{Deed, Position};
use sy_words::Verb;

/// A deed, with the powers and remedies of each position at hand. Contracts see the deed.
#[derive(Drop)]
pub(crate) struct Table<'a> {
    deed: &'a Deed,
    /// For each position the powers that act on it.
    powers: Vec<List<Power>>,
    /// The powers that act on the contract.
    contract_powers: List<Power>,
    /// For each position its remedies, by number.
    remedies: Vec<List<u32>>,
}

impl<'a> Model for Table<'a> {
    ghost use Rattle.sy_core.specs.declared.deed.Deed.{Deed};
    ghost use Rattle.sy_core.specs.contracts.proposition.Prop as prop;
    ghost use Rattle.std.specs.Coded.{codes};

    ghost Value = { Deed };

    ghost coded = { Prim.hlevel (codes, prop.the_row.coded) };

    ghost use Rattle.sy_order.specs.Machine.Tables.{IsTable};

    ghost view = { λ table. table.deed.now };

    ghost invariant = { λ table. IsTable table.deed.now table.powers.items table.contract_powers table.remedies.items };
}

impl<'a> Table<'a> {
    /// The table of the deed.
    pub fn of(alloc: Global, deed: &'a Deed) -> Result<Table<'a>, Memory>
        requires { length deed.now.positions ≤ 500 }
        ensures { IfOk result (λ table. table ≡ deed.now) }
    {
        let positions = deed.positions.items();
        Ok(Table {
            deed,
            powers: powers_on_positions(alloc, positions)?,
            contract_powers: powers_on_contract(alloc, positions)?,
            remedies: remedies(alloc, positions)?,
        })
    }

    /// The positions of the deed.
    pub fn positions(&self) -> &[Position]
        ensures positions { result.now ≡ self.now.positions }
        ensures few { length self.now.positions ≤ 500 }
    {
        self.deed.positions.items()
    }

    /// The position with this number, if it is there.
    pub fn position(&self, number: u32) -> Option<&Position>
        ensures { MatchOption result (slice_get self.now.positions number ≡ None)
            (λ position. slice_get self.now.positions number ≡ Some position.now) }
    {
        self.deed.positions.items().get(number as usize)
    }

    /// The remedies of a position, by number.
    pub fn remedies(&self, position: u32) -> &[u32]
        requires { position < length self.now.positions }
        ensures { result.now ≡ map (λ n. n.0) (remedies_of self.now (at.Position position)) }
    {
        self.remedies[position as usize].items()
    }

    /// Adds the exertions of the powers that do this to a position.
    pub fn push_exerts(&self, nodes: &mut Nodes, verb: Verb, position: u32) -> Result<(), Memory>
        requires { position < length self.now.positions }
        ensures { OnOk result (nodes.new ≡ nodes.old ++ exerts self.now verb (at.Position position)) }
    {
        push_exertions(nodes, self.powers[position as usize].items(), verb)
    }

    /// Adds the exertions of the powers that do this to the contract.
    pub fn push_contract_exerts(&self, nodes: &mut Nodes, verb: Verb) -> Result<(), Memory>
        ensures { OnOk result (nodes.new ≡ nodes.old ++ exerts self.now verb at.Contract) }
    {
        push_exertions(nodes, self.contract_powers.items(), verb)
    }

    /// Adds the exertions of all powers that act on the contract.
    pub fn push_all_contract_exerts(&self, nodes: &mut Nodes) -> Result<(), Memory>
        ensures { OnOk result (nodes.new ≡ nodes.old ++ exerts_on_contract self.now) }
    {
        for power in self.contract_powers.items() {
            nodes.push(Node::Exert(power.number))?;
        }
        Ok(())
    }
}
