ghost use Rattle.std.specs.Prelude.{◌≡◌, ℤ, List, length};
ghost use Rattle.sy_core.specs.declared.kind.Target.{Target};
ghost use Rattle.sy_core.specs.declared.state.StateOf.{StateOf};
ghost use Rattle.sy_core.specs.declared.deed.Deed.{Deed};
ghost use Rattle.sy_core.specs.declared.happening.What.{What};
ghost use Rattle.sy_core.specs.Moments.{Moment};
ghost use Rattle.sy_core.specs.Mentions.{InternalEvent};
ghost use Rattle.sy_core.specs.Chronicle.{conditions, internal_events};
ghost use Rattle.sy_core.specs.Orders.{IsAcyclic};
ghost use Rattle.sy_core.specs.Prerequisites.{nodes, numbered_needs};
ghost use Rattle.sy_core.specs.Dependence.{IsOrderOf};
ghost use Rattle.sy_core.specs.EventOrder.{event_order};
ghost use Rattle.sy_passes.specs.Passes.{nothing, pass};

/// The law of one pass, and no program. Where the needs of a deed's nodes have no cycle, the events
/// that follow from the order of the nodes stand in an order in which the condition of each looks
/// only at events before it. One pass over them, begun with no event, ends in what the rounds give.
pub fn one_pass_is_enough()
    ensures ordered { (deed : Deed) → IsAcyclic (numbered_needs deed) (length (nodes deed)) → IsOrderOf deed (event_order deed) }
    ensures pass { (deed : Deed) → IsAcyclic (numbered_needs deed) (length (nodes deed))
        → (point : ℤ) (happenings : List What) (state : Target → StateOf) (before : List Moment)
        → (event : InternalEvent)
        → pass (conditions deed point happenings state before) (event_order deed) nothing event
        ≡ internal_events deed point happenings state before event }
{}
