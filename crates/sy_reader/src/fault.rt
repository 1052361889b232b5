ghost use Rattle.std.specs.Prelude.{◌≡◌};
ghost use Rattle.sy_reader.specs.declared.fault.Fault.TheVariants.{Memory as Wanting};

use std::alloc::AllocError;
use sy_base::Memory;
use thiserror::Error;

/// Why something wasn't read.
#[derive(Clone, Copy, Debug, PartialEq, Eq, Error)]
pub enum Fault {
    #[error("out of memory")]
    Memory,
    /// How many lexemes there are from the first one that doesn't fit to the end: none where the
    /// end doesn't.
    #[error("syntax fault")]
    Syntax(usize),
}

impl From<Memory> for Fault {
    ghost from_gives = { λ _ fault. fault ≡ Wanting };

    fn from(_: Memory) -> Fault {
        Fault::Memory
    }
}

impl From<AllocError> for Fault {
    ghost from_gives = { λ _ fault. fault ≡ Wanting };

    fn from(_: AllocError) -> Fault {
        Fault::Memory
    }
}
