ghost use Rattle.std.specs.Prelude.{◌≡◌, ◌<◌, None, Some, option_map, slice_get, length, IfOk};
ghost use Rattle.sy_core.specs.NodeTexts.{node_text};
ghost use Rattle.sy_core.specs.Prerequisites.{nodes};
ghost use Rattle.sy_domain.specs.Ontologies.{domain_of};
ghost use Rattle.sy_scope.specs.Scopes.{things_of};
ghost use Rattle.sy_typing.specs.Machine.Planned.{IsPlanned};
ghost use Rattle.sy_typing.specs.Outlines as outlines;
ghost use Rattle.sy_typing.specs.Plans.{order_of_spec, order_text, spec_fault};

use crate::cycle::order_lines;
use std::alloc::Global;
use std::marker::Model;
use sy_base::{List, Memory, Text};
use sy_core::Deed;
use sy_domain::Ontology;
use sy_order::NodeIndex;
use sy_scope::Scope;
use sy_spec::SpecTree;

/// A specification without a fault, with what its names stand for and the order in which its nodes
/// are evaluated.
#[derive(Drop)]
pub struct Plan {
    tree: SpecTree,
    scope: Scope,
    outline: Deed,
    index: NodeIndex,
    order: List<u32>,
}

impl Model for Plan {
    ghost use Rattle.sy_spec.specs.declared.contract.SpecTree.{SpecTree};
    ghost use Rattle.sy_typing.specs.Machine.Planned.{IsPlanned};
    ghost use Rattle.std.specs.Coded.{codes};
    ghost use Rattle.sy_tree.specs.contracts.proposition.PropTree as prop;

    ghost Value = { SpecTree };

    ghost coded = { Prim.hlevel (codes, prop.the_row.coded) };

    ghost view = { λ plan. plan.tree };

    ghost invariant = { λ plan. IsPlanned plan.tree plan.scope plan.outline plan.index plan.order };
}

impl Plan {
    /// The plan of a specification, with all that it keeps.
    pub(crate) fn of(
        tree: SpecTree,
        scope: Scope,
        outline: Deed,
        index: NodeIndex,
        order: List<u32>,
    ) -> Plan
        requires { IsPlanned tree scope outline index order }
        ensures { result ≡ tree }
    {
        Plan {
            tree,
            scope,
            outline,
            index,
            order,
        }
    }

    /// The specification, in which no check finds a fault.
    pub fn tree(&self) -> &SpecTree
        ensures tree { result.now ≡ self.now }
        ensures sound { spec_fault self.now ≡ None }
    {
        &self.tree
    }

    /// Its names and types.
    pub fn ontology(&self) -> &Ontology
        ensures { result.now ≡ domain_of self.now }
    {
        self.scope.ontology()
    }

    /// What its names stand for where they are used.
    pub fn scope(&self) -> &Scope
        ensures { result.now ≡ things_of self.now }
    {
        &self.scope
    }

    /// The order in which its nodes are evaluated, by number: each stands behind all that it needs.
    pub fn order(&self) -> &[u32]
        ensures { result.now ≡ order_of_spec self.now }
    {
        self.order.items()
    }

    /// The text of a node of the order.
    pub fn node_text(&self, alloc: Global, node: u32) -> Result<Text, Memory>
        requires { node < length (nodes (outlines.outline self.now)) }
        ensures { IfOk result (λ text. Some text ≡ option_map (node_text (outlines.outline self.now)) (slice_get (nodes (outlines.outline self.now)) node)) }
    {
        sy_order::node_text(alloc, &self.outline, &self.index, node)
    }

    /// The texts of all nodes in the order in which they are evaluated: of each a line with the word
    /// `order`.
    pub fn order_text(&self, alloc: Global) -> Result<Text, Memory>
        ensures { IfOk result (λ text. text ≡ order_text self.now) }
    {
        order_lines(alloc, &self.outline, &self.index, self.order.items())
    }
}
