ghost use Rattle.std.specs.Prelude.{◌≡◌, Option, Some, None, MatchOption};
ghost use Rattle.sy_log.specs.declared.fault.LineFault.TheVariants.{Memory as Wanting};

use sy_base::{FaultName, Memory};
use thiserror::Error;

/// Why a line says nothing.
#[derive(Clone, Copy, Debug, PartialEq, Eq, Error)]
pub(crate) enum LineFault {
    #[error("out of memory")]
    Memory,
    #[error("{0}")]
    Fault(FaultName),
}

impl From<Memory> for LineFault {
    ghost from_gives = { λ _ fault. fault ≡ Wanting };

    fn from(_: Memory) -> LineFault {
        LineFault::Memory
    }
}
