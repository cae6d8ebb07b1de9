//! Bits packed into 64-bit words, with the place of each one and the count of ones before a place.
#![tactic(auto)]

mod bits;
mod samples;
mod select;
mod words;

pub use bits::{BitVec, NoMemory};
pub use select::Selector;
pub use words::{append_fields, bits_at, is_packed};

// How many words a count of the ones before them stands for.
const BLOCK: usize = 16;
// Each so many ones the place of one is noted.
const STEP: u64 = 128;
// How many words are looked at from a noted place on, before the counts are asked.
const NEAR: usize = 16;
