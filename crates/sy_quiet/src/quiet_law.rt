ghost use Rattle.std.specs.Prelude.{◌≡◌, ℕ, suc, ◌+◌, ◌<◌, false, Some, List, length, slice_get};
ghost use Rattle.sy_core.specs.declared.deed.Deed.{Deed};
ghost use Rattle.sy_core.specs.declared.event.Ev.TheVariants.{Inner};
ghost use Rattle.sy_core.specs.declared.happening.Happening.{Happening};
ghost use Rattle.sy_core.specs.declared.proposition.Prop.{Prop};
ghost use Rattle.sy_core.specs.Mentions.{InternalEvent};
ghost use Rattle.sy_core.specs.Chronicle.{chronicle, state_at, moment_at};
ghost use Rattle.sy_core.specs.Propositions.{verdict_at};
ghost use Rattle.sy_core.specs.Orders.{IsAcyclic};
ghost use Rattle.sy_core.specs.Prerequisites.{nodes, numbered_needs};
ghost use Rattle.sy_core.specs.Wakes.{is_wake_after};
ghost use Rattle.sy_quiet.specs.Histories.{passing, history_at};

/// The law of quiet points, and no program. At a point from start on that is no wake point nothing
/// internal happens, no state changes, and each postcondition has the verdict that it had one point
/// before. Over such points the history of a narrative goes on as if they were passed over.
pub fn quiet_points_change_nothing()
    ensures nothing { (deed : Deed) → IsAcyclic (numbered_needs deed) (length (nodes deed))
        → (narrative : List Happening) (n : ℕ) → is_wake_after deed narrative n ≡ false
        → (event : InternalEvent) → (moment_at deed narrative n).seen (Inner event.0 event.1) ≡ false }
    ensures states { (deed : Deed) → IsAcyclic (numbered_needs deed) (length (nodes deed))
        → (narrative : List Happening) (n : ℕ) → is_wake_after deed narrative n ≡ false
        → state_at deed narrative (suc n) ≡ state_at deed narrative n }
    ensures posts { (deed : Deed) → IsAcyclic (numbered_needs deed) (length (nodes deed))
        → (narrative : List Happening) (n : ℕ) → is_wake_after deed narrative (suc n) ≡ false
        → (i : ℕ) (post : Prop) → slice_get deed.posts i ≡ Some post
        → verdict_at deed.unit (moment_at deed narrative (suc n)) (chronicle deed narrative (suc n)) post
        ≡ verdict_at deed.unit (moment_at deed narrative n) (chronicle deed narrative n) post }
    ensures history { (deed : Deed) → IsAcyclic (numbered_needs deed) (length (nodes deed))
        → (narrative : List Happening) (n m : ℕ)
        → ((k : ℕ) → k < m → is_wake_after deed narrative (n + k) ≡ false)
        → history_at deed narrative (n + m) ≡ passing m (history_at deed narrative n) }
{}
