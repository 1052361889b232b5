//! The world outside the program: files, an input and an output as traits, what reads and writes
//! them whole, and objects in memory that never fail or fail as planned.
#![tactic(auto)]

mod lines;
mod outside;
mod planned;
mod read;
mod steps;
mod sure;
mod write;

pub use lines::{LINE_COUNT, LINE_LIMIT, Line, LineFault, LineReader};
pub use outside::{Failed, Files, Sink, Source};
pub use planned::{MemFiles, MemSink, MemSource};
pub use read::{FILE_LIMIT, FileFault, read_file};
pub use steps::Steps;
pub use sure::{Named, SureFiles, SureSink, SureSource};
pub use write::write_all;
