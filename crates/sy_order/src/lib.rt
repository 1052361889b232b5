//! The order in which the nodes of a deed are evaluated at a point, and the text of each node.
#![tactic(auto)]

mod evaluation;
mod index;
mod names;
mod naming_law;
mod needs;
mod node;
mod power;
mod remedy;
mod table;
mod text;

pub use evaluation::evaluation_order;
pub use index::NodeIndex;
pub use names::{InternalEvent, names_of};
pub use naming_law::sound_parts_are_there;
pub use node::Node;
pub use text::node_text;
