//! The method of PTHash (Pibiri and Trani, SIGIR 2021) as definitions that contracts cite.
#![tactic(auto)]

/// The odd number by which MurmurHash64A (Austin Appleby) multiplies, modulo 2^64.
pub const MULTIPLIER: u64 = 0xc6a4_a793_5bd1_e995;

/// Under the skewed map the first hashes below this number go to the front buckets: three fifths of all.
pub const FRONT_HASHES: u64 = 11_068_046_444_225_730_969;

/// The most keys of one list.
pub const MAX_KEYS: u64 = 67_108_864;

/// The most buckets of one partition.
pub const MAX_BUCKETS: u64 = 1_073_741_824;

/// The most positions of one table.
pub const MAX_POSITIONS: u64 = 268_435_456;

/// The most pilots that may be tried for a bucket.
pub const MAX_PILOTS: u64 = 4_294_967_295;

/// The most partitions of one list.
pub const MAX_PARTITIONS: u32 = 4096;

/// The least percentage of a table that is taken.
pub const MIN_ALPHA: u32 = 50;

/// The greatest percentage of a table that is taken.
pub const MAX_ALPHA: u32 = 100;

/// The least number of buckets, in hundredths of the keys over their logarithm.
pub const MIN_C: u32 = 100;

/// The greatest number of buckets, in hundredths of the keys over their logarithm.
pub const MAX_C: u32 = 1500;

/// How first hashes are spread over the buckets of a partition.
#[derive(Clone, Copy, Debug, PartialEq, Eq)]
pub enum Map {
    /// Three fifths of the hashes go to the front buckets, three tenths of all buckets.
    Skewed,
    /// Each bucket gets as many hashes as each other.
    Uniform,
}

/// A key as the search sees it: its first hash `a`, its second hash `b` and its place in the list of keys, from 0.
#[derive(Clone, Copy, Debug, PartialEq, Eq)]
pub struct Record {
    pub a: u64,
    pub b: u64,
    pub ordinal: u64,
}
