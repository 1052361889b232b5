ghost use Rattle.std.specs.Prelude.{◌≡◌, IfOk};
ghost use Rattle.sy_print.specs.CanonicalText.{canonical_text};
ghost use Rattle.sy_print.specs.ReadingBack.{IsReadBack, IsSpelled};

mod contract;
mod domain;
mod proposition;
mod term;
mod writer;

use std::alloc::Global;
use sy_base::{Memory, Text};
use sy_spec::SpecTree;
use writer::{Printed, Writer};

fn written_out(alloc: Global, tree: &SpecTree) -> Result<Text, Memory>
    ensures { IfOk result (λ text. text ≡ canonical_text tree.now) }
{
    let mut out = Writer::new(alloc);
    tree.domain.put(&mut out)?;
    tree.contract.put(&mut out)?;
    Ok(out.text())
}

/// The canonical text of a specification: its tokens, each with a blank or a newline behind it.
pub fn print(alloc: Global, tree: &SpecTree) -> Result<Text, Memory>
    ensures text { IfOk result (λ text. text ≡ canonical_text tree.now) }
    // Where the tokens of some text spell the tree, those of its canonical text spell an equal one.
    ensures read_back { IsSpelled tree.now → IfOk result (IsReadBack tree.now) }
{
    written_out(alloc, tree)
}
