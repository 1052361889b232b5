ghost use Rattle.std.specs.Prelude.{◌≡◌, ℕ, suc, ◌+◌, ◌<◌, false, ◌||◌, List, length};
ghost use Rattle.sy_core.specs.declared.deed.Deed.{Deed};
ghost use Rattle.sy_core.specs.declared.happening.Happening.{Happening};
ghost use Rattle.sy_core.specs.Orders.{IsAcyclic};
ghost use Rattle.sy_core.specs.Prerequisites.{nodes, numbered_needs};
ghost use Rattle.sy_core.specs.Wakes.{is_wake_after};
ghost use Rattle.sy_quiet.specs.KnownWakes.{is_told, is_due, is_eventful, is_known_wake, NothingComes};

/// What is known of a wake point when it comes, and no program. Whether a point is one can be told
/// by its happenings and by the moments before it alone: no date that becomes known at a point in
/// which nothing else happens falls on it.
pub fn wake_is_known()
    ensures { (deed : Deed) → IsAcyclic (numbered_needs deed) (length (nodes deed))
        → (narrative : List Happening) (n : ℕ)
        → is_wake_after deed narrative n ≡ is_known_wake deed narrative n }
{}

/// The law of the next wake point, and no program. After a point at which nothing internal happened,
/// no wake point comes before the next happening or the next date that is known there; and a point
/// that no wake point comes before is one where it has a happening or such a date.
pub fn next_wake_is_known()
    ensures none { (deed : Deed) → IsAcyclic (numbered_needs deed) (length (nodes deed))
        → (narrative : List Happening) (n m : ℕ) → is_eventful deed narrative n ≡ false
        → NothingComes deed narrative n m
        → (k : ℕ) → k < m → is_wake_after deed narrative (suc n + k) ≡ false }
    ensures next { (deed : Deed) → IsAcyclic (numbered_needs deed) (length (nodes deed))
        → (narrative : List Happening) (n m : ℕ) → is_eventful deed narrative n ≡ false
        → NothingComes deed narrative n m
        → is_wake_after deed narrative (suc n + m)
        ≡ (is_told deed narrative (suc n + m) || is_due deed narrative (suc n) (suc n + m)) }
{}
