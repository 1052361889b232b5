ghost use Rattle.std.specs.Prelude.{◌≡◌, ◌++◌, map, slice_get, option_and_then, IfOk, OnOk};
ghost use Rattle.std.specs.List.{flat_map};
ghost use Rattle.sy_core.specs.Prerequisites.{nodes};
ghost use Rattle.sy_order.specs.Nodes.{as_defined, forms_of};
ghost use Rattle.sy_typing.specs.Machine.Lines.{order_lines_at, words_at};
ghost use Rattle.sy_typing.specs.Plans as plans;
ghost use Rattle.sy_typing.specs.Plans.{joined, node_texts, order_line};

use std::alloc::Global;
use sy_base::{List, Memory, Place, Text};
use sy_core::Deed;
use sy_order::{Node, NodeIndex, node_text};
use sy_spec::{ContractTree, ObligTree, PowerTree};

/// Adds the line of the node with a number, where it is there.
fn add_line(
    alloc: Global,
    deed: &Deed,
    index: &NodeIndex,
    number: u32,
    out: &mut Vec<u8>,
) -> Result<(), Memory>
    requires { index.now ≡ forms_of deed.now.positions }
    ensures { OnOk result (out.new.items ≡ out.old.items ++ order_lines_at deed.now number) }
{
    if number < index.count() {
        let text = node_text(alloc, deed, index, number)?;
        out.extend_from_slice(b"order ")?;
        out.extend_from_slice(text.bytes())?;
        out.push(b'\n')?;
    }
    Ok(())
}

/// The bytes of the lines of the nodes with these numbers.
fn line_bytes(
    alloc: Global,
    deed: &Deed,
    index: &NodeIndex,
    order: &[u32],
) -> Result<Vec<u8>, Memory>
    requires { index.now ≡ forms_of deed.now.positions }
    ensures { IfOk result (λ out. out.items ≡ flat_map (order_lines_at deed.now) order.now) }
{
    let mut out = Vec::new(alloc);
    'number: for number in order {
        add_line(alloc, deed, index, *number, &mut out)?;
    }
    Ok(out)
}

/// The lines of the nodes with these numbers, of a deed with this index.
pub(crate) fn order_lines(
    alloc: Global,
    deed: &Deed,
    index: &NodeIndex,
    order: &[u32],
) -> Result<Text, Memory>
    requires { index.now ≡ forms_of deed.now.positions }
    ensures { IfOk result (λ text. text ≡ flat_map order_line (node_texts deed.now order.now)) }
{
    let bytes = line_bytes(alloc, deed, index, order)?;
    Ok(Text::from(bytes))
}

/// Adds a blank and the text of the node with a number, where it is there.
fn add_word(
    alloc: Global,
    deed: &Deed,
    index: &NodeIndex,
    number: u32,
    out: &mut Vec<u8>,
) -> Result<(), Memory>
    requires { index.now ≡ forms_of deed.now.positions }
    ensures { OnOk result (out.new.items ≡ out.old.items ++ words_at deed.now number) }
{
    if number < index.count() {
        let text = node_text(alloc, deed, index, number)?;
        out.push(b' ')?;
        out.extend_from_slice(text.bytes())?;
    }
    Ok(())
}

/// The texts of the nodes with these numbers, with a blank before each.
fn spaced_words(
    alloc: Global,
    deed: &Deed,
    index: &NodeIndex,
    numbers: &[u32],
) -> Result<Vec<u8>, Memory>
    requires { index.now ≡ forms_of deed.now.positions }
    ensures { IfOk result (λ out. out.items ≡ flat_map (words_at deed.now) numbers.now) }
{
    let mut out = Vec::new(alloc);
    'number: for number in numbers {
        add_word(alloc, deed, index, *number, &mut out)?;
    }
    Ok(out)
}

/// The texts of the nodes with these numbers, with a blank between them.
pub(crate) fn words_of(
    alloc: Global,
    deed: &Deed,
    index: &NodeIndex,
    numbers: &[u32],
) -> Result<Text, Memory>
    requires { index.now ≡ forms_of deed.now.positions }
    ensures { IfOk result (λ text. text ≡ joined (node_texts deed.now numbers.now)) }
{
    let spaced = spaced_words(alloc, deed, index, numbers)?;
    match spaced.as_slice() {
        [] => Text::new(alloc, b""),
        [_, words @ ..] => Text::new(alloc, words),
    }
}

/// Adds the places of the names of obligations.
fn add_obligations(trees: &[ObligTree], out: &mut List<Place>) -> Result<(), Memory>
    ensures { OnOk result (out.new ≡ out.old ++ map (λ o. o.name.place) trees.now) }
{
    'tree: for tree in trees {
        out.push(tree.name.place)?;
    }
    Ok(())
}

/// Adds the places of the names of powers.
fn add_powers(trees: &[PowerTree], out: &mut List<Place>) -> Result<(), Memory>
    ensures { OnOk result (out.new ≡ out.old ++ map (λ p. p.name.place) trees.now) }
{
    'tree: for tree in trees {
        out.push(tree.name.place)?;
    }
    Ok(())
}

/// The places of the names of positions, by the positions' numbers.
fn position_places(alloc: Global, contract: &ContractTree) -> Result<List<Place>, Memory>
    ensures { IfOk result (λ places. places ≡ plans.position_places contract.now) }
{
    let mut places = List::new(alloc);
    add_obligations(contract.obligations.items(), &mut places)?;
    add_obligations(contract.surviving.items(), &mut places)?;
    add_powers(contract.powers.items(), &mut places)?;
    Ok(places)
}

/// Where a node stands.
fn node_place(places: &[Place], contract: &ContractTree, node: Node) -> Option<Place>
    requires { places.now ≡ plans.position_places contract.now }
    ensures { result ≡ plans.node_place contract.now (as_defined node) }
{
    match node {
        Node::Exert(position) | Node::Trig(position) | Node::Act(position) | Node::End(position) =>
            places.get(position as usize).copied(),
        Node::Contract => Some(contract.place),
    }
}

/// Where the node with a number stands, if it is there.
fn place_at(
    places: &[Place],
    contract: &ContractTree,
    deed: &Deed,
    index: &NodeIndex,
    number: u32,
) -> Option<Place>
    requires places { places.now ≡ plans.position_places contract.now }
    requires index { index.now ≡ forms_of deed.now.positions }
    ensures { result ≡ option_and_then (plans.node_place contract.now) (slice_get (nodes deed.now) number) }
{
    if number < index.count() {
        node_place(places, contract, index.node(number))
    } else {
        None
    }
}

/// Where the first of the nodes with these numbers stands.
pub(crate) fn first_place(
    alloc: Global,
    contract: &ContractTree,
    deed: &Deed,
    index: &NodeIndex,
    numbers: &[u32],
) -> Result<Option<Place>, Memory>
    requires { index.now ≡ forms_of deed.now.positions }
    ensures { IfOk result (λ place. place ≡ plans.first_place contract.now deed.now numbers.now) }
{
    let places = position_places(alloc, contract)?;
    match numbers {
        [] => Ok(None),
        [number, ..] => Ok(place_at(places.items(), contract, deed, index, *number)),
    }
}
