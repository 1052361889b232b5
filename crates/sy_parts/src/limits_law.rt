ghost use Rattle.std.specs.Prelude.{◌≤◌, length, IsTrue};
ghost use Rattle.sy_core.specs.declared.deed.Deed.{Deed};
ghost use Rattle.sy_core.specs.Limits.{KeepsLimits, atoms_of, of_deed};
ghost use Rattle.sy_parts.specs.Counts.{has_few_parts};

/// That a deed keeps its limits where its positions, events and atoms are within theirs and it has
/// few parts, and only there; and no program.
pub fn few_parts_keep_limits()
    ensures kept { (deed : Deed) → length deed.positions ≤ 500 → length deed.events ≤ 500 → of_deed atoms_of deed ≤ 4000
        → IsTrue (has_few_parts deed) → KeepsLimits deed }
    ensures only { (deed : Deed) → KeepsLimits deed → IsTrue (has_few_parts deed) }
{}
