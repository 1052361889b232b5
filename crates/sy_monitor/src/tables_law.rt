ghost use Rattle.std.specs.Prelude.{◌≡◌, ◌↔◌, ℤ, List};
ghost use Rattle.std.specs.List.{Contains};
ghost use Rattle.sy_core.specs.declared.deed.Deed.{Deed};
ghost use Rattle.sy_core.specs.declared.happening.Happening.{Happening};
ghost use Rattle.sy_core.specs.Tables.{table_as_of};

/// What a table goes by, and no program: the tables of two narratives with the same happenings are
/// the same, whatever the order in which they stand, and however often one does.
pub fn tables_go_by_what_happens()
    ensures { (deed : Deed) (these those : List Happening) (date : ℤ)
        → ((h : Happening) → Contains these h ↔ Contains those h)
        → table_as_of deed these date ≡ table_as_of deed those date }
{}
