//! The laws of a narrative point by point: at a point that is no wake point nothing happens, which
//! wake points are known before they come, and what the evaluation of one point tells.
#![tactic(auto)]

mod point_law;
mod quiet_law;
mod wake_law;

pub use point_law::one_point_goes_on;
pub use quiet_law::quiet_points_change_nothing;
pub use wake_law::{next_wake_is_known, wake_is_known};
