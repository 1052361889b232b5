//! The top call: it does what the words of the program say, over files, an input and an output that
//! it is handed.
#![tactic(auto)]

mod compile;
mod files;
mod log;
mod monitor;
mod output_law;
mod status;
mod stop;
mod stream;
mod top;

pub use output_law::{commands_have_one_outcome, logs_have_one_output};
pub use status::Status;
pub use top::run;
