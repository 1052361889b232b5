ghost use Rattle.std.specs.Prelude.{◌≡◌, ℕ, length};
ghost use Rattle.sy_core.specs.declared.deed.Deed.{Deed};
ghost use Rattle.sy_core.specs.Orders.{IsAcyclic};
ghost use Rattle.sy_core.specs.Prerequisites.{nodes, numbered_needs, order_of};
ghost use Rattle.sy_parts.specs.Bare.{AreSameBare};

/// The law that the order of a deed goes by its bare positions, and no program. Two deeds whose
/// positions are the same but for what their propositions say of the internal events that they name
/// have the same nodes, the same needs and the same order; and where the needs of the one have no
/// cycle, those of the other have none.
pub fn bare_positions_give_order()
    ensures nodes { (a b : Deed) → AreSameBare a b → nodes a ≡ nodes b }
    ensures needs { (a b : Deed) → AreSameBare a b → (k : ℕ) → numbered_needs a k ≡ numbered_needs b k }
    ensures order { (a b : Deed) → AreSameBare a b → order_of a ≡ order_of b }
    ensures acyclic { (a b : Deed) → AreSameBare a b
        → IsAcyclic (numbered_needs a) (length (nodes a)) → IsAcyclic (numbered_needs b) (length (nodes b)) }
{}
