//! Lists of small numbers under four codes and their pairs, with one spelling for each list.
#![tactic(auto)]

mod code;
mod compact;
mod dict;
mod distinct;
mod entries;
mod groups;
mod part;
mod parted;
mod pilots;
mod sums;
mod walk;

pub use bit_vector::NoMemory;
pub use code::{Code, Encoding};
pub use elias_fano::{FormFault, ReadErr};
pub use pilots::Pilots;

// How many values a group has.
const GROUP: u64 = 256;
