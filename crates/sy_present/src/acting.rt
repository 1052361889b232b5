ghost use Rattle.std.specs.Prelude.{◌≡◌, ◌∷◌, ◌-◌, ◌==◌, ◌&&◌, List, if◌then◌else◌};
ghost use Rattle.sy_core.specs.declared.deed.Deed.{Deed as ADeed};
ghost use Rattle.sy_core.specs.Prerequisites as defined;
ghost use Rattle.sy_core.specs.EventOrder.{acts, none_acts, contract_events};
ghost use Rattle.sy_order.specs.Nodes.{as_defined};
ghost use Rattle.sy_present.specs.Machine.Behind.{stands_behind};
ghost use Rattle.sy_present.specs.Machine.Counts.{AreActing};

use sy_core::{Deed, Target, is_act};
use sy_order::Node;
use sy_words::Verb;

/// How many of some nodes are exertions of powers that resume, suspend or terminate the contract.
#[derive(Clone, Copy, Debug)]
pub(crate) struct Acting {
    pub resumes: usize,
    pub suspends: usize,
    pub terminates: usize,
}

/// Which events of the contract stand behind a node: it is the last that does this to the contract.
#[derive(Clone, Copy, Debug)]
pub(crate) struct Behind {
    pub resumes: bool,
    pub suspends: bool,
    pub terminates: bool,
}

impl Acting {
    /// Which events of the contract stand in front of all the nodes that were counted: those of what
    /// no node does.
    pub fn front(self) -> Behind
        ensures { (deed : ADeed) (ns : List defined.Node) → AreActing self deed ns
            → contract_events (stands_behind result) ≡ contract_events (none_acts deed ns) }
    {
        Behind {
            resumes: self.resumes == 0,
            suspends: self.suspends == 0,
            terminates: self.terminates == 0,
        }
    }

    /// The first of the nodes that were counted is passed. Answers which events of the contract stand
    /// behind it.
    pub fn pass(&mut self, deed: &Deed, node: Node) -> Behind
        ensures left { (later : List defined.Node) → AreActing self.old deed.now (as_defined node ∷ later)
            → AreActing self.new deed.now later }
        ensures behind { (later : List defined.Node) → AreActing self.old deed.now (as_defined node ∷ later)
            → contract_events (stands_behind result)
            ≡ contract_events (λ verb. acts deed.now verb (as_defined node) && none_acts deed.now later verb) }
    {
        Behind {
            resumes: pass(&mut self.resumes, acts(deed, Verb::Resumes, node)),
            suspends: pass(&mut self.suspends, acts(deed, Verb::Suspends, node)),
            terminates: pass(&mut self.terminates, acts(deed, Verb::Terminates, node)),
        }
    }
}

/// One of so many nodes is passed, where it is one of those that act. Answers whether it is the last
/// of them.
fn pass(left: &mut usize, acts: bool) -> bool
    ensures left { left.new ≡ left.old - (if acts then 1 else 0) }
    ensures last { result ≡ (acts && (left.new == 0)) }
{
    if acts {
        *left = left.saturating_sub(1);
    }
    acts && *left == 0
}

/// Whether the node is the exertion of a power that does this to the contract.
pub(crate) fn acts(deed: &Deed, verb: Verb, node: Node) -> bool
    ensures { result ≡ acts deed.now verb (as_defined node) }
{
    match node {
        Node::Exert(number) => match deed.positions.items().get(number as usize) {
            None => false,
            Some(power) => is_act(verb, Target::Contract, &power.goal),
        },
        _ => false,
    }
}
