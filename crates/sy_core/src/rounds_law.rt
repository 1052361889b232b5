ghost use Rattle.std.specs.Prelude.{◌≡◌, ℤ, Bool, List};
ghost use Rattle.sy_core.specs.declared.kind.Target.{Target};
ghost use Rattle.sy_core.specs.declared.state.StateOf.{StateOf};
ghost use Rattle.sy_core.specs.declared.deed.Deed.{Deed};
ghost use Rattle.sy_core.specs.declared.happening.What.{What};
ghost use Rattle.sy_core.specs.Rounds.{IsSettled};
ghost use Rattle.sy_core.specs.Moments.{Moment};
ghost use Rattle.sy_core.specs.Mentions.{InternalEvent};
ghost use Rattle.sy_core.specs.Chronicle.{conditions, internal_events};
ghost use Rattle.sy_core.specs.Dependence.{IsOrderOf};
ghost use Rattle.sy_core.specs.EventOrder.{event_order};
ghost use Rattle.sy_core.specs.Soundness.{IsSound};

/// The law of the rounds, and no program. The internal events of a sound deed stand in an order in
/// which the condition of each looks only at events before it. So those of a point are a set that
/// the conditions leave as it is, and no other set is so.
pub fn rounds_settle()
    ensures ordered { (deed : Deed) → IsSound deed → IsOrderOf deed (event_order deed) }
    ensures settled { (deed : Deed) → IsSound deed
        → (point : ℤ) (happenings : List What) (state : Target → StateOf) (before : List Moment)
        → IsSettled (conditions deed point happenings state before) (internal_events deed point happenings state before) }
    ensures alone { (deed : Deed) → IsSound deed
        → (point : ℤ) (happenings : List What) (state : Target → StateOf) (before : List Moment)
        → (set : InternalEvent → Bool) → IsSettled (conditions deed point happenings state before) set
        → (event : InternalEvent) → set event ≡ internal_events deed point happenings state before event }
{}
