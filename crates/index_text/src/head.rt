// The fields that each index begins with.

/// How each index begins.
pub const MAGIC: [u8; 4] = [80, 84, 72, 88];

/// The version of an index without a mark.
pub const UNMARKED: u8 = 1;

/// The version of an index with a mark.
pub const MARKED: u8 = 2;

/// The place of the number of keys.
pub const KEYS_AT: u64 = 16;

/// The place of alpha.
pub const ALPHA_AT: u64 = 24;

/// The place of c, which the number of buckets follows from.
pub const BUCKETS_AT: u64 = 32;

/// The place of the number of partitions.
pub const PARTITIONS_AT: u64 = 40;

/// How many bytes the fields take that both versions have.
pub const HEAD_LEN: usize = 48;

/// How many bytes a mark takes.
pub const MARK_LEN: usize = 16;

/// How many bytes the digest takes.
pub const DIGEST_LEN: usize = 8;

/// The fewest bytes that are looked at.
pub const MIN_BYTES: usize = 56;

/// The most bytes of an index.
pub const MAX_BYTES: usize = 68_719_476_736;

/// The fields as they stand in the bytes, whether or not they are in their ranges.
#[derive(Clone, Copy, Debug, PartialEq, Eq)]
pub struct HeadFields {
    /// The version.
    pub version: u8,
    /// The number of the front code.
    pub front: u8,
    /// The number of the back code.
    pub back: u8,
    /// The number of the map.
    pub spread: u8,
    pub seed: u64,
    /// The number of keys.
    pub n: u64,
    pub alpha: u64,
    pub c: u64,
    /// The number of partitions.
    pub parts: u64,
}
