ghost use Rattle.std.specs.Prelude.{◌≡◌};
ghost use Rattle.sy_strata.specs.declared.fault.OrderFault.TheVariants.{Memory as Wanting};

use sy_base::{List, Memory};
use thiserror::Error;

/// Why nodes have no order.
#[derive(Debug, Drop, Error)]
pub enum OrderFault {
    /// Each of these nodes needs the next one, and the last one the first.
    #[error("nodes need each other in a cycle")]
    Cycle(List<u32>),
    #[error("out of memory")]
    Memory,
}

impl From<Memory> for OrderFault {
    ghost from_gives = { λ _ fault. fault ≡ Wanting };

    fn from(_: Memory) -> OrderFault {
        OrderFault::Memory
    }
}
