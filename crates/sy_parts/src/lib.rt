//! What the parts of a deed come to.
#![tactic(auto)]

mod counts;
mod limits_law;
mod order_law;

pub use counts::has_few_parts;
pub use limits_law::few_parts_keep_limits;
pub use order_law::bare_positions_give_order;
