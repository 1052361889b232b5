ghost use Rattle.std.specs.Prelude.{◌≡◌, ◌+ℤ◌, ℕ, suc, pos, List, length};
ghost use Rattle.sy_core.specs.declared.deed.Deed.{Deed};
ghost use Rattle.sy_core.specs.declared.happening.What.{What};
ghost use Rattle.sy_core.specs.declared.happening.Happening.{Happening};
ghost use Rattle.sy_core.specs.Chronicle.{assuming, at_point};
ghost use Rattle.sy_core.specs.Orders.{IsAcyclic};
ghost use Rattle.sy_core.specs.Prerequisites.{nodes, numbered_needs};
ghost use Rattle.sy_quiet.specs.Histories.{history_at};
ghost use Rattle.sy_quiet.specs.Evaluation.{evaluated};

/// The law of one evaluated point, and no program. What the narrative has there is seen, then each
/// event that happens is fired in the order of events, then the states after the point are set. This
/// carries the history of a narrative at a point to its history at the next. The happenings that are
/// seen may be others than the narrative's there, as long as a moment can't tell them apart.
pub fn one_point_goes_on()
    ensures { (deed : Deed) → IsAcyclic (numbered_needs deed) (length (nodes deed))
        → (narrative : List Happening) (n : ℕ) (happenings : List What)
        → assuming (deed.start +ℤ pos n) happenings
        ≡ assuming (deed.start +ℤ pos n) (at_point narrative (deed.start +ℤ pos n))
        → evaluated deed happenings (history_at deed narrative n) ≡ history_at deed narrative (suc n) }
{}
