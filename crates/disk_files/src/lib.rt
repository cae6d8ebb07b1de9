//! The files of the disk and standard output, as the program meets them.
#![tactic(auto)]

mod files;
mod handles;
mod pieces;
mod sink;
mod system;

pub use files::DiskFiles;
pub use sink::StdSink;
pub use system::System;
