ghost use Rattle.std.specs.Prelude.{◌≡◌, ◌++◌, map, IfOk, OnOk};
ghost use Rattle.sy_lower.specs.Positions as positions;
ghost use Rattle.sy_lower.specs.Positions.{obligation, postconditions, power};
ghost use Rattle.sy_lower.specs.Propositions as props;

use crate::Lowering;
use sy_base::{List, Memory};
use sy_core::{Goal, Position, Prop};
use sy_spec::{ObligTree, PowerTree};
use sy_tree::PropTree;
use sy_typing::act_outline;
use sy_words::Form;

impl Lowering<'_> {
    /// A trigger; one that is left out is true.
    fn trigger(&self, trigger: &Option<PropTree>) -> Result<Prop, Memory>
        ensures { IfOk result (λ prop. prop ≡ props.trigger self.now trigger.now) }
    {
        match trigger {
            Some(tree) => self.proposition(tree),
            None => Ok(Prop::Const(true)),
        }
    }

    /// An obligation, surviving or not.
    fn obligation(&self, form: Form, tree: &ObligTree) -> Result<Position, Memory>
        ensures { IfOk result (λ p. p ≡ obligation self.now form tree.now) }
    {
        Ok(Position {
            name: tree.name.text.copy(self.alloc)?,
            form,
            first: tree.debtor.text.copy(self.alloc)?,
            second: tree.creditor.text.copy(self.alloc)?,
            trigger: self.trigger(&tree.trigger)?,
            antecedent: self.proposition(&tree.antecedent)?,
            goal: Goal::Duty(self.proposition(&tree.consequent)?),
        })
    }

    /// A power.
    fn power(&self, tree: &PowerTree) -> Result<Position, Memory>
        ensures { IfOk result (λ p. p ≡ power self.now tree.now) }
    {
        Ok(Position {
            name: tree.name.text.copy(self.alloc)?,
            form: Form::Power,
            first: tree.holder.text.copy(self.alloc)?,
            second: tree.other_party.text.copy(self.alloc)?,
            trigger: self.trigger(&tree.trigger)?,
            antecedent: self.proposition(&tree.antecedent)?,
            goal: act_outline(self.scope.ontology(), self.contract, &tree.act),
        })
    }

    /// Adds obligations.
    fn add_obligations(
        &self,
        form: Form,
        trees: &[ObligTree],
        out: &mut List<Position>,
    ) -> Result<(), Memory>
        ensures { OnOk result (out.new ≡ out.old ++ map (obligation self.now form) trees.now) }
    {
        'tree: for tree in trees {
            out.push(self.obligation(form, tree)?)?;
        }
        Ok(())
    }

    /// Adds powers.
    fn add_powers(&self, trees: &[PowerTree], out: &mut List<Position>) -> Result<(), Memory>
        ensures { OnOk result (out.new ≡ out.old ++ map (power self.now) trees.now) }
    {
        'tree: for tree in trees {
            out.push(self.power(tree)?)?;
        }
        Ok(())
    }

    /// All positions: obligations, surviving obligations and powers.
    pub fn positions(&self) -> Result<List<Position>, Memory>
        ensures { IfOk result (λ list. list ≡ positions.positions self.now) }
    {
        let mut list = List::new(self.alloc);
        let contract = self.contract;
        self.add_obligations(Form::Obligation, contract.obligations.items(), &mut list)?;
        self.add_obligations(Form::Surviving, contract.surviving.items(), &mut list)?;
        self.add_powers(contract.powers.items(), &mut list)?;
        Ok(list)
    }

    /// The postconditions.
    pub fn postconditions(&self) -> Result<List<Prop>, Memory>
        ensures { IfOk result (λ list. list ≡ postconditions self.now) }
    {
        let mut list = List::new(self.alloc);
        'tree: for tree in self.contract.postconditions.items() {
            list.push(self.proposition(tree)?)?;
        }
        Ok(list)
    }
}
