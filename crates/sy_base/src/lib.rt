//! What every crate stands on: texts and lists that contracts see as lists, places and refusals, and
//! the units of time.
#![tactic(auto)]

mod list;
mod memory;
mod refusal;
mod text;
mod time;

pub use list::List;
pub use memory::Memory;
pub use refusal::{FaultName, FileKind, Place, Refusal, Refused};
pub use text::Text;
pub use time::{Duration, Measure, Point, TimeUnit};
