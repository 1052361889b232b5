ghost use Rattle.std.specs.Prelude.{◌≡◌, nat_eq, IfOk};
ghost use Rattle.std.specs.List.{list_any};
ghost use Rattle.sy_chains.specs.Chains as chains;
ghost use Rattle.sy_chains.specs.Chains.{above};

use std::alloc::Global;
use sy_base::{List, Memory};

/// The base of the type with a number, if it has one.
pub fn base_at(bases: &[Option<usize>], number: usize) -> Option<usize>
    ensures { result ≡ chains.base_at bases.now number }
{
    match bases.get(number) {
        Some(base) => *base,
        None => None,
    }
}

/// The isA chain above a type.
pub fn chain_above(
    alloc: Global,
    bases: &[Option<usize>],
    number: usize,
) -> Result<List<usize>, Memory>
    ensures { IfOk result (λ l. l ≡ above bases.now number) }
{
    let mut out = List::new(alloc);
    let mut at = base_at(bases, number);
    'steps: for k in 0..bases.len() {
        match at {
            None => return Ok(out),
            Some(reached) => {
                out.push(reached)?;
                at = base_at(bases, reached);
            }
        }
    }
    Ok(out)
}

/// Whether a type stands on the isA chain above another.
pub fn is_above(bases: &[Option<usize>], from: usize, to: usize) -> bool
    ensures { result ≡ list_any (nat_eq to) (above bases.now from) }
{
    let mut at = base_at(bases, from);
    'steps: for k in 0..bases.len() {
        match at {
            None => return false,
            Some(reached) => {
                if to == reached {
                    return true;
                }
                at = base_at(bases, reached);
            }
        }
    }
    false
}
