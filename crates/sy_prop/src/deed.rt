ghost use Rattle.std.specs.Prelude.{◌≡◌, ◌+◌, ◌≤◌, length, IsTrue};
ghost use Rattle.std.specs.List.{list_all};
ghost use Rattle.sy_core.specs.Soundness.{is_sound_prop, is_sound_goal, is_sound_position};
ghost use Rattle.sy_prop.specs.Machine.Changes.{changed_from};
ghost use Rattle.sy_prop.specs.Machine.Deeds.{changes_of_goal, changes_of_position, changes_of_positions, changes_of_posts, changes_of_deed};
ghost use Rattle.sy_prop.specs.Machine.Tellings.{step_of};

use crate::node::Node;
use crate::telling::Telling;
use crate::walk::tell;
use sy_core::{Form, Goal, Position};

/// The nodes of a duty take what is told of them; an act has none.
fn tell_goal(nodes: &mut [Node], at: usize, telling: &Telling, form: Form, goal: &Goal) -> usize
    requires room { at + length (changes_of_goal (step_of telling.now) goal.now) ≤ length nodes.old }
    requires sound { IsTrue (is_sound_goal telling.now.deed.now form goal.now) }
    ensures count { result ≡ at + length (changes_of_goal (step_of telling.now) goal.now) }
    ensures nodes { nodes.new
        ≡ changed_from at (changes_of_goal (step_of telling.now) goal.now) nodes.old }
{
    match goal {
        Goal::Duty(consequent) => tell(nodes, at, telling, consequent),
        Goal::Act(_) => at,
    }
}

/// The nodes of a position take what is told of them.
fn tell_position(nodes: &mut [Node], at: usize, telling: &Telling, position: &Position) -> usize
    requires room { at + length (changes_of_position (step_of telling.now) position.now)
        ≤ length nodes.old }
    requires sound { IsTrue (is_sound_position telling.now.deed.now position.now) }
    ensures count { result ≡ at + length (changes_of_position (step_of telling.now) position.now) }
    ensures nodes { nodes.new
        ≡ changed_from at (changes_of_position (step_of telling.now) position.now) nodes.old }
{
    let antecedent = tell(nodes, at, telling, &position.trigger);
    let goal = tell(nodes, antecedent, telling, &position.antecedent);
    tell_goal(nodes, goal, telling, position.form, &position.goal)
}

/// The nodes of all positions take what is told of them.
fn tell_positions(nodes: &mut [Node], telling: &Telling) -> usize
    requires room { length (changes_of_positions (step_of telling.now) telling.now.deed.now)
        ≤ length nodes.old }
    requires sound { IsTrue (list_all (is_sound_position telling.now.deed.now) telling.now.deed.now.positions) }
    ensures count { result
        ≡ length (changes_of_positions (step_of telling.now) telling.now.deed.now) }
    ensures nodes { nodes.new
        ≡ changed_from 0 (changes_of_positions (step_of telling.now) telling.now.deed.now) nodes.old }
{
    let mut next = 0;
    for position in telling.deed.positions.items() {
        next = tell_position(nodes, next, telling, position);
    }
    next
}

/// The nodes of the postconditions take what is told of them.
fn tell_posts(nodes: &mut [Node], at: usize, telling: &Telling)
    requires room { at + length (changes_of_posts (step_of telling.now) telling.now.deed.now)
        ≤ length nodes.old }
    requires sound { IsTrue (list_all (is_sound_prop telling.now.deed.now) telling.now.deed.now.posts) }
    ensures { nodes.new
        ≡ changed_from at (changes_of_posts (step_of telling.now) telling.now.deed.now) nodes.old }
{
    let mut next = at;
    for post in telling.deed.posts.items() {
        next = tell(nodes, next, telling, post);
    }
}

/// The nodes of the deed take what is told of them.
pub(crate) fn tell_deed(nodes: &mut [Node], telling: &Telling)
    requires room { length (changes_of_deed (step_of telling.now) telling.now.deed.now)
        ≤ length nodes.old }
    requires positions { IsTrue (list_all (is_sound_position telling.now.deed.now) telling.now.deed.now.positions) }
    requires posts { IsTrue (list_all (is_sound_prop telling.now.deed.now) telling.now.deed.now.posts) }
    ensures { nodes.new
        ≡ changed_from 0 (changes_of_deed (step_of telling.now) telling.now.deed.now) nodes.old }
{
    let posts = tell_positions(nodes, telling);
    tell_posts(nodes, posts, telling);
}
