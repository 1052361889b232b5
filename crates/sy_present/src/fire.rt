ghost use Rattle.std.specs.Prelude.{◌≡◌, List, ◌∷◌, ◌++◌, ◌&&◌, slice_get};
ghost use Rattle.sy_core.specs.declared.kind.Target.TheVariants as target;
ghost use Rattle.sy_core.specs.Soundness.{HasSoundParts};
ghost use Rattle.sy_core.specs.Prerequisites as defined;
ghost use Rattle.sy_core.specs.EventOrder.{acts, none_acts, event_if, contract_events, node_events, obligation_ends, end_events_of, event_order};
ghost use Rattle.sy_order.specs.Nodes.{as_defined};
ghost use Rattle.sy_quiet.specs.Histories.{History};
ghost use Rattle.sy_quiet.specs.Evaluation.{firing_if, firing_all};
ghost use Rattle.sy_present.specs.Standing.{IsMadeFor, last_point};
ghost use Rattle.sy_present.specs.Machine.Counts.{AreActing};
ghost use Rattle.sy_present.specs.Machine.Told.{IsPresent};
ghost use Rattle.sy_present.specs.Machine.Behind.{stands_behind};

use crate::acting::{Acting, Behind};
use crate::present::Present;
use sy_core::Deed;
use sy_order::Node;
use sy_words::{Form, Kind};

impl Present {
    /// The internal event of the position with this number happens where its condition is true.
    fn fire_position(&mut self, deed: &Deed, kind: Kind, number: u32)
        requires sound { HasSoundParts deed.now }
        requires made { IsMadeFor self.old deed.now }
        ensures made { IsMadeFor self.new deed.now }
        ensures point { last_point self.new ≡ last_point self.old }
        ensures present { (h : History) → IsPresent self.old deed.now h
            → IsPresent self.new deed.now (firing_if deed.now (kind, target.Position number) h) }
    {
        if self.fires_at(deed, kind, number) {
            self.happen(deed, kind, number);
        }
    }

    /// The internal event of the contract happens where its condition is true.
    fn fire_contract(&mut self, deed: &Deed, kind: Kind)
        requires sound { HasSoundParts deed.now }
        requires made { IsMadeFor self.old deed.now }
        ensures made { IsMadeFor self.new deed.now }
        ensures point { last_point self.new ≡ last_point self.old }
        ensures present { (h : History) → IsPresent self.old deed.now h
            → IsPresent self.new deed.now (firing_if deed.now (kind, target.Contract) h) }
    {
        if self.contract_fires(deed, kind) {
            self.happen_to_contract(deed, kind);
        }
    }

    /// The internal event of the contract is decided, where it stands here.
    fn fire_contract_if(&mut self, deed: &Deed, stands: bool, kind: Kind)
        requires sound { HasSoundParts deed.now }
        requires made { IsMadeFor self.old deed.now }
        ensures made { IsMadeFor self.new deed.now }
        ensures point { last_point self.new ≡ last_point self.old }
        ensures present { (h : History) → IsPresent self.old deed.now h
            → IsPresent self.new deed.now (firing_all deed.now (event_if stands kind) h) }
    {
        if stands {
            self.fire_contract(deed, kind);
        }
    }

    /// The contract's events that stand behind a node are decided: it is resumed, then suspended, then
    /// terminated.
    fn fire_behind(&mut self, deed: &Deed, behind: Behind)
        requires sound { HasSoundParts deed.now }
        requires made { IsMadeFor self.old deed.now }
        ensures made { IsMadeFor self.new deed.now }
        ensures point { last_point self.new ≡ last_point self.old }
        ensures present { (h : History) → IsPresent self.old deed.now h
            → IsPresent self.new deed.now (firing_all deed.now (contract_events (stands_behind behind)) h) }
    {
        self.fire_contract_if(deed, behind.resumes, Kind::Resumed);
        self.fire_contract_if(deed, behind.suspends, Kind::Suspended);
        self.fire_contract_if(deed, behind.terminates, Kind::Terminated);
    }

    /// The events that end the obligation with this number are decided.
    fn fire_obligation_ends(&mut self, deed: &Deed, number: u32)
        requires sound { HasSoundParts deed.now }
        requires made { IsMadeFor self.old deed.now }
        ensures made { IsMadeFor self.new deed.now }
        ensures point { last_point self.new ≡ last_point self.old }
        ensures present { (h : History) → IsPresent self.old deed.now h
            → IsPresent self.new deed.now (firing_all deed.now (obligation_ends (target.Position number)) h) }
    {
        self.fire_position(deed, Kind::Discharged, number);
        self.fire_position(deed, Kind::Terminated, number);
        self.fire_position(deed, Kind::Expired, number);
        self.fire_position(deed, Kind::Fulfilled, number);
        self.fire_position(deed, Kind::Violated, number);
    }

    /// The events that end the position with this number, if it is there, are decided.
    fn fire_ends(&mut self, deed: &Deed, number: u32)
        requires sound { HasSoundParts deed.now }
        requires made { IsMadeFor self.old deed.now }
        ensures made { IsMadeFor self.new deed.now }
        ensures point { last_point self.new ≡ last_point self.old }
        ensures present { (h : History) → IsPresent self.old deed.now h
            → IsPresent self.new deed.now (firing_all deed.now
            (end_events_of (target.Position number) (slice_get deed.now.positions number)) h) }
    {
        match deed.positions.items().get(number as usize) {
            None => {}
            Some(position) => match position.form {
                Form::Obligation => self.fire_obligation_ends(deed, number),
                Form::Surviving => self.fire_obligation_ends(deed, number),
                Form::Power => {
                    self.fire_position(deed, Kind::Terminated, number);
                    self.fire_position(deed, Kind::Expired, number);
                }
            },
        }
    }

    /// The events of a node are decided, in their order.
    fn fire_events(&mut self, deed: &Deed, node: Node)
        requires sound { HasSoundParts deed.now }
        requires made { IsMadeFor self.old deed.now }
        ensures made { IsMadeFor self.new deed.now }
        ensures point { last_point self.new ≡ last_point self.old }
        ensures present { (h : History) → IsPresent self.old deed.now h
            → IsPresent self.new deed.now (firing_all deed.now (node_events deed.now (as_defined node)) h) }
    {
        match node {
            Node::Exert(number) => self.fire_position(deed, Kind::Exerted, number),
            Node::Trig(number) => self.fire_position(deed, Kind::Triggered, number),
            Node::Act(number) => {
                self.fire_position(deed, Kind::Activated, number);
                self.fire_position(deed, Kind::Resumed, number);
                self.fire_position(deed, Kind::Suspended, number);
            }
            Node::End(number) => self.fire_ends(deed, number),
            Node::Contract => self.fire_contract(deed, Kind::Completed),
        }
    }

    /// The events of a node are decided, and those of the contract that stand behind it. Before it so
    /// many nodes act on the contract that it is one of, and after it as many as come later.
    fn fire_node(&mut self, deed: &Deed, node: Node, left: &mut Acting)
        requires sound { HasSoundParts deed.now }
        requires made { IsMadeFor self.old deed.now }
        ensures made { IsMadeFor self.new deed.now }
        ensures point { last_point self.new ≡ last_point self.old }
        ensures left { (later : List defined.Node) → AreActing left.old deed.now (as_defined node ∷ later)
            → AreActing left.new deed.now later }
        ensures present { (later : List defined.Node) → AreActing left.old deed.now (as_defined node ∷ later)
            → (h : History) → IsPresent self.old deed.now h
            → IsPresent self.new deed.now (firing_all deed.now
            (node_events deed.now (as_defined node)
            ++ contract_events (λ verb. acts deed.now verb (as_defined node) && none_acts deed.now later verb)) h) }
    {
        self.fire_events(deed, node);
        let behind = left.pass(deed, node);
        self.fire_behind(deed, behind);
    }

    /// Each internal event of the deed is decided once, in the deed's order.
    pub(crate) fn fire_all(&mut self, deed: &Deed)
        requires sound { HasSoundParts deed.now }
        requires made { IsMadeFor self.old deed.now }
        ensures made { IsMadeFor self.new deed.now }
        ensures point { last_point self.new ≡ last_point self.old }
        ensures present { (h : History) → IsPresent self.old deed.now h
            → IsPresent self.new deed.now (firing_all deed.now (event_order deed.now) h) }
    {
        let mut left = self.acting;
        self.fire_behind(deed, left.front());
        for index in 0..self.order.len() {
            let node = self.order[index];
            self.fire_node(deed, node, &mut left);
        }
    }
}
