ghost use Rattle.std.specs.Prelude.{◌≡◌, ℕ, length, slice_index_or, [], ◌∷◌};
ghost use Rattle.sy_core.specs.Orders.{IsAcyclic, named_cycle};
ghost use Rattle.sy_core.specs.Prerequisites.{nodes, numbered_needs, nodes_in_order};
ghost use Rattle.sy_core.specs.Soundness.{IsOrdered};
ghost use Rattle.sy_axioms_tests.specs.MeatSale.{meat_sale};
ghost use Rattle.sy_axioms_tests.specs.SaleOrder.{sale_nodes, sale_needs, sale_order};
ghost use Rattle.sy_axioms_tests.specs.Crossed.{crossed, crossed_needs};

/// The nodes of the meat sale, what each needs, and the order in which those of a point are
/// evaluated. It is no program: the tables were worked out by hand.
pub fn sale_is_ordered()
    ensures nodes { nodes meat_sale ≡ sale_nodes }
    ensures needs { (k : ℕ) → numbered_needs meat_sale k ≡ slice_index_or sale_needs k [] }
    ensures order { nodes_in_order meat_sale ≡ sale_order }
    ensures ordered { IsOrdered meat_sale }
{}

/// Two obligations of which each begins with the violation of the other have no order, and the cycle
/// that is named is Trig(o1), End(o2), Trig(o2), End(o1). It is no program.
pub fn crossed_needs_have_a_cycle()
    ensures needs { (k : ℕ) → numbered_needs crossed k ≡ slice_index_or crossed_needs k [] }
    ensures cycle { named_cycle (numbered_needs crossed) (length (nodes crossed)) ≡ 0 ∷ 5 ∷ 3 ∷ 2 ∷ [] }
{}
