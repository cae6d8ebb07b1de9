//! A demonstration: keys made of numbers, and their index under each encoding, written and read again.
#![tactic(auto)]

mod codes;
mod keys;
mod trial;

pub use crate::keys::demo_keys;
pub use crate::trial::{Tried, try_encodings};
pub use hem_build::Built;
pub use index_file::{Code, Encoding};
pub use pth_outside::{KeyList, NoMemory};

#[cfg(test)]
mod tests;
