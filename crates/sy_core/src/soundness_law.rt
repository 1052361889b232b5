ghost use Rattle.std.specs.Prelude.{◌≡◌, ◌≤◌, ℕ, Some, length, slice_get};
ghost use Rattle.sy_core.specs.declared.position.Position.{Position};
ghost use Rattle.sy_core.specs.declared.deed.EventDecl.{EventDecl};
ghost use Rattle.sy_core.specs.declared.deed.Deed.{Deed};
ghost use Rattle.sy_core.specs.Limits.{atoms_of, of_deed};
ghost use Rattle.sy_core.specs.Soundness.{IsSound};

/// What soundness says of numbers and of names, and no program: a sound deed has at most 500
/// positions, 500 declared events and 4,000 atoms, and no two positions and no two events have the
/// same name.
pub fn soundness_bounds()
    ensures positions { (deed : Deed) → IsSound deed → length deed.positions ≤ 500 }
    ensures events { (deed : Deed) → IsSound deed → length deed.events ≤ 500 }
    ensures atoms { (deed : Deed) → IsSound deed → of_deed atoms_of deed ≤ 4000 }
    ensures position_names { (deed : Deed) → IsSound deed → (i j : ℕ) (a b : Position)
        → slice_get deed.positions i ≡ Some a → slice_get deed.positions j ≡ Some b
        → a.name ≡ b.name → i ≡ j }
    ensures event_names { (deed : Deed) → IsSound deed → (i j : ℕ) (a b : EventDecl)
        → slice_get deed.events i ≡ Some a → slice_get deed.events j ≡ Some b
        → a.name ≡ b.name → i ≡ j }
{}
