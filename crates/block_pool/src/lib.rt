//! Chains of records in one region of memory, which is cut into blocks and taken once.
#![tactic(auto)]

mod blocks;
#[cfg(test)]
mod tests;

pub use crate::blocks::{BLOCK_RECORDS, MAX_BLOCKS, MAX_CHAINS, Pool, Push};
pub use bucket_map::{NoMemory, Record};
