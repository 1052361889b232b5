ghost use Rattle.std.specs.Prelude.{◌≡◌, ◌+◌, ◌≤◌, ◌<◌, ◌∷◌, [], length, IsTrue};
ghost use Rattle.sy_core.specs.Soundness.{is_sound_prop};
ghost use Rattle.sy_atoms.specs.Machine.Atoms.{told_atom};
ghost use Rattle.sy_prop.specs.Machine.Changes.{changes_of, changed_from};
ghost use Rattle.sy_prop.specs.Machine.Tellings.{step_of};

use crate::node::Node;
use crate::telling::Telling;
use sy_atoms::Update;
use sy_core::Prop;

/// The node with this number takes what is told of it. Gives the number of the next one.
fn tell_atom(nodes: &mut [Node], at: usize, update: Update) -> usize
    requires room { at < length nodes.old }
    ensures count { result ≡ at + 1 }
    ensures nodes { nodes.new ≡ changed_from at (told_atom update ∷ []) nodes.old }
{
    let mut node = nodes[at];
    node.tell(update);
    nodes[at] = node;
    at + 1
}

/// The nodes of a proposition, which begin with number `at`, take what is told of them. Gives the
/// number of the node behind them.
pub(crate) fn tell(nodes: &mut [Node], at: usize, telling: &Telling, prop: &Prop) -> usize
    requires room { at + length (changes_of (step_of telling.now) prop.now) ≤ length nodes.old }
    requires sound { IsTrue (is_sound_prop telling.now.deed.now prop.now) }
    ensures count { result ≡ at + length (changes_of (step_of telling.now) prop.now) }
    ensures nodes { nodes.new
        ≡ changed_from at (changes_of (step_of telling.now) prop.now) nodes.old }
{
    match prop {
        Prop::Const(_) => at + 1,
        Prop::Not(part) => tell(nodes, at, telling, part.get()) + 1,
        Prop::All(parts) => {
            let mut next = at + 1;
            for part in parts.as_slice() {
                next = tell(nodes, next, telling, part) + 1;
            }
            next
        }
        Prop::Any(parts) => {
            let mut next = at + 1;
            for part in parts.as_slice() {
                next = tell(nodes, next, telling, part) + 1;
            }
            next
        }
        Prop::Happens(ev) => tell_atom(nodes, at, telling.news.of_happens(ev)),
        Prop::Before(ev, to) => tell_atom(nodes, at, telling.of_before(ev, to)),
        Prop::After(ev, from) => tell_atom(nodes, at, telling.of_after(ev, from)),
        Prop::Within(ev, from, to) => tell_atom(nodes, at, telling.of_within(ev, from, to)),
        Prop::Occurs(situation, from, to) => {
            tell_atom(nodes, at, telling.of_occurs(*situation, from, to))
        }
        Prop::Holds(situation) => tell_atom(nodes, at, telling.news.of_holds(*situation)),
    }
}
