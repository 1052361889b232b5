ghost use Rattle.std.specs.Prelude.{◌≡◌, ◌+◌, ℕ, ◌<◌, length, get_or, Option, Some, None, IfOk};
ghost use Rattle.sy_chains.specs.Chains.{NoCycle, chain_end};
ghost use Rattle.sy_chains.specs.Machine.Ends.{AreEnds, AreNoted, IsNoted};
ghost use Rattle.sy_chains.specs.Machine.Walks.{IsOver};

use crate::chains::base_at;
use crate::walks::unmarked;
use std::alloc::Global;
use sy_base::Memory;

/// The mark of the type with a number, if it has one.
pub fn mark_at(marks: &[Option<usize>], number: usize) -> Option<usize>
    ensures { result ≡ get_or marks.now number None }
{
    match marks.get(number) {
        Some(mark) => *mark,
        None => None,
    }
}

/// The end of the chain of a type: that of the first type on it whose end is known, or else the last
/// type on it.
fn find_end(bases: &[Option<usize>], ends: &[Option<usize>], from: usize) -> usize
    requires none { NoCycle bases.now }
    requires ends { AreEnds bases.now ends.now }
    ensures { result ≡ chain_end bases.now from }
{
    let mut at = from;
    'climb: for k in 0..bases.len() {
        if let Some(end) = mark_at(ends, at) {
            return end;
        }
        match base_at(bases, at) {
            Some(base) => at = base,
            None => return at,
        }
    }
    at
}

/// Notes the end of a type's chain at each type on it, until one has it already.
fn note_end(bases: &[Option<usize>], end: usize, from: usize, ends: &mut [Option<usize>])
    requires none { NoCycle bases.now }
    requires ends { AreEnds bases.now ends.old }
    requires end { end ≡ chain_end bases.now from }
    ensures { (at : Option ℕ) × IsNoted bases.now from end ends.old ends.new at × IsOver ends.new at }
{
    let mut at = Some(from);
    'climb: while let Some(number) = unmarked(ends, at) {
        ends[number] = Some(end);
        at = base_at(bases, number);
    }
}

/// The type at the end of each type's chain.
pub fn find_ends(alloc: Global, bases: &[Option<usize>]) -> Result<Vec<Option<usize>>, Memory>
    requires { NoCycle bases.now }
    ensures { IfOk result (λ ends. (n : ℕ) → n < length bases.now
        → get_or ends.items n None ≡ Some (chain_end bases.now n)) }
{
    let mut ends = vec![in alloc; None; bases.len()]?;
    'types: for from in 0..bases.len() {
        note_type(bases, from, &mut ends);
    }
    Ok(ends)
}

/// Notes the end of a type's chain.
fn note_type(bases: &[Option<usize>], from: usize, ends: &mut [Option<usize>])
    requires none { NoCycle bases.now }
    requires from { from < length bases.now }
    requires noted { AreNoted bases.now from ends.old }
    ensures { AreNoted bases.now (from + 1) ends.new }
{
    let end = find_end(bases, ends, from);
    note_end(bases, end, from, ends);
}
