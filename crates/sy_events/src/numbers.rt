ghost use Rattle.std.specs.Prelude.{◌≡◌, IfOk};
ghost use Rattle.sy_events.specs.Numbers.{numbers_from};

use std::alloc::Global;
use sy_base::{List, Memory};

/// The number of each of some things among those that are meant. Where more than 2^32 are, the
/// answer is want of memory.
pub(crate) fn numbers(alloc: Global, meant: &[bool]) -> Result<List<Option<u32>>, Memory>
    ensures { IfOk result (λ numbers. numbers ≡ numbers_from 0 meant.now) }
{
    let mut numbers = List::new(alloc);
    let mut next: u32 = 0;
    'thing: for is_meant in meant {
        if *is_meant {
            numbers.push(Some(next))?;
            next = match next.checked_add(1) {
                Some(next) => next,
                None => return Err(Memory),
            };
        } else {
            numbers.push(None)?;
        }
    }
    Ok(numbers)
}
