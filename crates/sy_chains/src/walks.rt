ghost use Rattle.std.specs.Prelude.{◌≡◌, ◌+◌, ℕ, ◌<◌, length, get_or, slice_get, is_some, Some, None, replicate, IfOk, MatchOption};
ghost use Rattle.sy_chains.specs.Chains.{is_cyclic};
ghost use Rattle.sy_chains.specs.Machine.Walks.{IsWalk, IsOver, AreWalked};

use crate::chains::base_at;
use std::alloc::Global;
use sy_base::Memory;

/// The type, where it is there and no walk has been at it.
pub(crate) fn unmarked(marks: &[Option<usize>], at: Option<usize>) -> Option<usize>
    ensures { MatchOption result (IsOver marks.now at)
        (λ n. (at ≡ Some n) × (slice_get marks.now n ≡ Some None)) }
{
    match at {
        Some(number) => match marks.get(number) {
            Some(None) => Some(number),
            Some(Some(_)) => None,
            None => None,
        },
        None => None,
    }
}

/// Walks up a chain, and leaves a mark at each type, until one has a mark or there is none. Gives
/// where it ends.
fn climb(bases: &[Option<usize>], from: usize, marks: &mut [Option<usize>]) -> Option<usize>
    ensures walk { IsWalk bases.now from marks.old marks.new result }
    ensures over { IsOver marks.new result }
{
    let mut at = Some(from);
    'climb: while let Some(number) = unmarked(marks, at) {
        marks[number] = Some(from);
        at = base_at(bases, number);
    }
    at
}

/// Where a walk has come back to a type that it had marked.
fn meeting(marks: &[Option<usize>], from: usize, end: Option<usize>) -> Option<usize>
    ensures { MatchOption result ((n : ℕ) → end ≡ Some n → get_or marks.now n None ≡ Some from → ⊥)
        (λ n. (end ≡ Some n) × (get_or marks.now n None ≡ Some from)) }
{
    match end {
        Some(number) => match marks.get(number) {
            Some(Some(mark)) if *mark == from => Some(number),
            _ => None,
        },
        None => None,
    }
}

/// Walks up from a type, and marks the cycle that it finds, if it is a new one.
fn walk(
    bases: &[Option<usize>],
    from: usize,
    marks: &mut [Option<usize>],
    cyclic: &mut [Option<usize>],
)
    requires from { from < length bases.now }
    requires walked { AreWalked bases.now from marks.old cyclic.old }
    ensures { AreWalked bases.now (from + 1) marks.new cyclic.new }
{
    let end = climb(bases, from, marks);
    if let Some(number) = meeting(marks, from, end) {
        climb(bases, number, cyclic);
    }
}

/// A mark for each type whose chain reaches itself.
pub fn find_cycles(alloc: Global, bases: &[Option<usize>]) -> Result<Vec<Option<usize>>, Memory>
    ensures { IfOk result (λ cyclic. (n : ℕ) → n < length bases.now
        → is_some (get_or cyclic.items n None) ≡ is_cyclic bases.now n) }
{
    let mut marks = vec![in alloc; None; bases.len()]?;
    let mut cyclic = vec![in alloc; None; bases.len()]?;
    'walks: for from in 0..bases.len() {
        walk(bases, from, &mut marks, &mut cyclic);
    }
    Ok(cyclic)
}
