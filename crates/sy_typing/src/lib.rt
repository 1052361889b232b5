//! The plan of a specification: all its checks, one behind the other, and the order in which the
//! nodes of a point are evaluated.
#![tactic(auto)]

mod cycle;
mod faults;
mod mentions;
mod outline;
mod planned;
mod planning;
mod positions;

pub use outline::{act_outline, prop_outline};
pub use planned::Plan;
pub use planning::plan;
pub use positions::{act_target, event_target, position_if};
