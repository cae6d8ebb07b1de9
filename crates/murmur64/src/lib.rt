//! MurmurHash64A (Austin Appleby) of keys and pilots.
#![tactic(auto)]

mod hash;
mod pair;
#[cfg(test)]
mod tests;

pub use crate::hash::{murmur64, pilot_hash};
pub use crate::pair::{HashPair, hash_pair};
