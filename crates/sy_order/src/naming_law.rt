ghost use Rattle.std.specs.Prelude.{IsTrue};
ghost use Rattle.std.specs.List.{list_all};
ghost use Rattle.sy_core.specs.declared.deed.Deed.{Deed};
ghost use Rattle.sy_core.specs.Soundness.{HasSoundParts};
ghost use Rattle.sy_order.specs.Naming.{names_what_is_there};

/// That a deed with sound parts names only what is there, and no program.
pub fn sound_parts_are_there()
    ensures { (deed : Deed) → HasSoundParts deed
        → IsTrue (list_all (names_what_is_there deed) deed.positions) }
{}
