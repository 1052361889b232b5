ghost use Rattle.std.specs.Prelude.{◌≡◌, ◌<◌, Some, slice_get, length, option_map, IfOk};
ghost use Rattle.sy_core.specs.NodeTexts.{name_of, node_text};
ghost use Rattle.sy_core.specs.Prerequisites.{nodes};
ghost use Rattle.sy_order.specs.Nodes.{as_defined, forms_of};
ghost use Rattle.sy_order.specs.Texts.{position_of, with_name, text_with};
ghost use Rattle.sy_order.specs.Machine.Names.{name_at};

use crate::index::NodeIndex;
use crate::node::Node;
use std::alloc::Global;
use sy_base::{Memory, Text};
use sy_core::{Deed, Position};

impl Node {
    /// The place of its position in the deed's `positions`. The contract's node has none.
    pub fn position(self) -> Option<u32>
        ensures { result ≡ position_of (as_defined self) }
    {
        match self {
            Node::Exert(position)
            | Node::Trig(position)
            | Node::Act(position)
            | Node::End(position) => Some(position),
            Node::Contract => None,
        }
    }

    /// Its text, where its position has this name. That of the contract's node has no name in it.
    pub fn text(self, alloc: Global, name: &[u8]) -> Result<Text, Memory>
        ensures { IfOk result (λ text. text ≡ text_with (as_defined self) name.now) }
    {
        match self {
            Node::Exert(_) => with_name(alloc, b"Exert", name),
            Node::Trig(_) => with_name(alloc, b"Trig", name),
            Node::Act(_) => with_name(alloc, b"Act", name),
            Node::End(_) => with_name(alloc, b"End", name),
            Node::Contract => Text::new(alloc, b"Contract"),
        }
    }
}

/// The text of the node with this number, where the index is that of the forms of the deed's
/// positions.
pub fn node_text(alloc: Global, deed: &Deed, index: &NodeIndex, number: u32) -> Result<Text, Memory>
    requires index { index.now ≡ forms_of deed.now.positions }
    requires there { number < length (nodes deed.now) }
    ensures { IfOk result
        (λ text. Some text ≡ option_map (node_text deed.now) (slice_get (nodes deed.now) number)) }
{
    let node = index.node(number);
    node.text(alloc, name_at(deed.positions.items(), node.position()))
}

/// The name of the position at a place, or no byte where there is none.
fn name_at(positions: &[Position], place: Option<u32>) -> &[u8]
    ensures { result.now ≡ name_at positions.now place }
{
    match place {
        Some(number) => name_of(positions, number),
        None => b"",
    }
}

/// The name of the position with this number, or no byte where it isn't there.
fn name_of(positions: &[Position], number: u32) -> &[u8]
    ensures { result.now ≡ name_of (slice_get positions.now number) }
{
    match positions.get(number as usize) {
        Some(position) => position.name.bytes(),
        None => b"",
    }
}

/// A word, with a name in brackets.
fn with_name(alloc: Global, word: &[u8], name: &[u8]) -> Result<Text, Memory>
    ensures { IfOk result (λ text. text ≡ with_name word.now name.now) }
{
    let mut bytes = Vec::new(alloc);
    bytes.extend_from_slice(word)?;
    bytes.push(b'(')?;
    bytes.extend_from_slice(name)?;
    bytes.push(b')')?;
    Ok(Text::from(bytes))
}
