ghost use Rattle.std.specs.Prelude.{◌≡◌, ◌++◌, ◌∷◌, OnOk, IfOk, IsTrue, length, []};
ghost use Rattle.std.specs.List.{flat_map, list_all};
ghost use Rattle.sy_core.specs.Soundness.{is_sound_prop, is_sound_goal, is_sound_position};
ghost use Rattle.sy_atoms.specs.Histories.{first_history};
ghost use Rattle.sy_prop.specs.Machine.Tables.{nodes_of_prop, nodes_of_props};
ghost use Rattle.sy_prop.specs.Machine.Roots.{nodes_of_goal, roots_at, roots_from, posts_from};
ghost use Rattle.sy_prop.specs.Standing.{duty_props, position_props};

use crate::node::Node;
use crate::roots::PositionRoots;
use sy_atoms::{Atom, Sight, first_due, first_look};
use sy_base::Memory;
use sy_core::{Deed, Form, Goal, Position, Prop};

/// What is kept of an event at start: it didn't happen.
const UNSEEN: Sight = Sight {
    past: false,
    here: false,
};

/// Adds a node.
fn push(nodes: &mut Vec<Node>, node: Node) -> Result<(), Memory>
    ensures { OnOk result (nodes.new.items ≡ nodes.old.items ++ node ∷ []) }
{
    nodes.push(node)?;
    Ok(())
}

/// How many nodes there are.
fn count(nodes: &Vec<Node>) -> usize
    ensures { result ≡ length nodes.now.items }
{
    nodes.len()
}

/// Adds the nodes of a proposition, as they are at start.
fn add(nodes: &mut Vec<Node>, deed: &Deed, prop: &Prop) -> Result<(), Memory>
    requires sound { IsTrue (is_sound_prop deed.now prop.now) }
    ensures { OnOk result (nodes.new.items
        ≡ nodes.old.items
        ++ nodes_of_prop deed.now.unit (first_history deed.now.start) prop.now (length nodes.old.items)) }
{
    match prop {
        Prop::Const(truth) => push(nodes, Node::Const(*truth)),
        Prop::Not(part) => {
            add(nodes, deed, part.get())?;
            push(nodes, Node::Not)?;
            Ok(())
        }
        Prop::All(parts) => {
            push(nodes, Node::Const(true))?;
            for part in parts.as_slice() {
                let root = count(nodes) - 1;
                add(nodes, deed, part)?;
                push(nodes, Node::Both(root))?;
            }
            Ok(())
        }
        Prop::Any(parts) => {
            push(nodes, Node::Const(false))?;
            for part in parts.as_slice() {
                let root = count(nodes) - 1;
                add(nodes, deed, part)?;
                push(nodes, Node::Either(root))?;
            }
            Ok(())
        }
        Prop::Happens(_) => push(nodes, Node::Atom(Atom::Happens(UNSEEN))),
        Prop::Before(_, to) => push(nodes, Node::Atom(Atom::Before(UNSEEN, first_due(deed, to)))),
        Prop::After(_, from) => push(
            nodes,
            Node::Atom(Atom::After(UNSEEN, first_due(deed, from))),
        ),
        Prop::Within(_, from, to) => {
            let from = first_due(deed, from);
            let to = first_due(deed, to);
            push(nodes, Node::Atom(Atom::Within(UNSEEN, from, to)))
        }
        Prop::Occurs(situation, from, to) => {
            let from = first_due(deed, from);
            let to = first_due(deed, to);
            push(
                nodes,
                Node::Atom(Atom::Occurs(first_look(*situation), false, from, to)),
            )
        }
        Prop::Holds(situation) => push(nodes, Node::Atom(Atom::Holds(first_look(*situation)))),
    }
}

/// Adds the nodes of a duty; an act has none.
fn add_goal(nodes: &mut Vec<Node>, deed: &Deed, form: Form, goal: &Goal) -> Result<(), Memory>
    requires sound { IsTrue (is_sound_goal deed.now form goal.now) }
    ensures { OnOk result (nodes.new.items
        ≡ nodes.old.items
        ++ nodes_of_goal deed.now.unit (first_history deed.now.start) goal.now (length nodes.old.items)) }
{
    match goal {
        Goal::Duty(consequent) => {
            add(nodes, deed, consequent)?;
            Ok(())
        }
        Goal::Act(_) => Ok(()),
    }
}

/// Adds the nodes of a position, and gives where they end.
fn add_position(
    nodes: &mut Vec<Node>,
    deed: &Deed,
    position: &Position,
) -> Result<PositionRoots, Memory>
    requires sound { IsTrue (is_sound_position deed.now position.now) }
    ensures nodes { OnOk result (nodes.new.items
        ≡ nodes.old.items
        ++ nodes_of_props deed.now.unit (first_history deed.now.start) (position_props position.now) (length nodes.old.items)) }
    ensures roots { IfOk result (λ roots. roots ≡ roots_at (length nodes.old.items) position.now) }
{
    add(nodes, deed, &position.trigger)?;
    let trigger = count(nodes);
    add(nodes, deed, &position.antecedent)?;
    let antecedent = count(nodes);
    add_goal(nodes, deed, position.form, &position.goal)?;
    Ok(PositionRoots {
        trigger: trigger - 1,
        antecedent: antecedent - 1,
        consequent: count(nodes) - 1,
    })
}

/// Adds the nodes of all positions, and where those of each end.
pub(crate) fn add_positions(
    nodes: &mut Vec<Node>,
    roots: &mut Vec<PositionRoots>,
    deed: &Deed,
) -> Result<(), Memory>
    requires sound { IsTrue (list_all (is_sound_position deed.now) deed.now.positions) }
    requires no_nodes { nodes.old.items ≡ [] }
    requires no_roots { roots.old.items ≡ [] }
    ensures nodes { OnOk result (nodes.new.items
        ≡ nodes_of_props deed.now.unit (first_history deed.now.start) (flat_map position_props deed.now.positions) 0) }
    ensures roots { OnOk result (roots.new.items ≡ roots_from 0 deed.now.positions) }
{
    for position in deed.positions.items() {
        let ends = add_position(nodes, deed, position)?;
        roots.push(ends)?;
    }
    Ok(())
}

/// Adds the nodes of the postconditions, and where those of each end.
pub(crate) fn add_posts(
    nodes: &mut Vec<Node>,
    posts: &mut Vec<usize>,
    deed: &Deed,
) -> Result<(), Memory>
    requires sound { IsTrue (list_all (is_sound_prop deed.now) deed.now.posts) }
    requires no_posts { posts.old.items ≡ [] }
    ensures nodes { OnOk result (nodes.new.items
        ≡ nodes.old.items
        ++ nodes_of_props deed.now.unit (first_history deed.now.start) deed.now.posts (length nodes.old.items)) }
    ensures posts { OnOk result (posts.new.items ≡ posts_from (length nodes.old.items) deed.now.posts) }
{
    for post in deed.posts.items() {
        add(nodes, deed, post)?;
        posts.push(count(nodes) - 1)?;
    }
    Ok(())
}
