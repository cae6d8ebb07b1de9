//! Files and a sink as the program meets them, the same in memory, and readers of whole files.
#![tactic(auto)]

mod files;
mod key_file;
mod key_list;
mod line_reader;
mod memory_files;
mod memory_sink;
mod sink;
mod slots;
mod whole;

pub use files::{FileErr, Files};
pub use key_file::{KeysErr, read_keys};
pub use key_list::KeyList;
pub use line_reader::{Line, LineErr, LineReader};
pub use memory_files::MemFiles;
pub use memory_sink::MemSink;
pub use sink::{Sink, SinkErr};
use std::alloc::{AllocError, AllocFailed};
pub use whole::{WholeErr, read_whole};

/// The byte between two keys of a key file.
pub const LINE_FEED: u8 = b'\n';

/// The most bytes that a key has.
pub const LONGEST_KEY: usize = 65535;

/// A call found no memory for what it was to do.
#[derive(Clone, Copy, Debug, PartialEq, Eq)]
pub struct NoMemory;

impl From<AllocError> for NoMemory {
    fn from(_: AllocError) -> Self {
        NoMemory
    }
}

impl<T: Drop> From<AllocFailed<T>> for NoMemory {
    fn from(_: AllocFailed<T>) -> Self {
        NoMemory
    }
}
