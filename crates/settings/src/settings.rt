// The settings of a build: their limits where the method has none, their values where none are given, and their ranges.
ghost use Rattle.std.specs.Prelude.{◌≤◌, length};
ghost use Rattle.pthash.specs.declared.TheConstants.{MAX_PARTITIONS, MAX_PILOTS};
ghost use Rattle.settings.specs.declared.settings.TheConstants.{MAX_SEEDS, MAX_WORKERS};
ghost use Rattle.settings.specs.Workers.{workers_of};

use crate::how::How;
use bucket_map::{Map, Shape};
use pilot_codecs::{Code, Encoding};

/// The most seeds that are tried.
pub const MAX_SEEDS: usize = 16;

/// The most workers that search a partition.
pub const MAX_WORKERS: u32 = 64;

/// The most blocks of memory that records are kept in.
pub const MAX_BLOCKS: u32 = 65_536;

/// The seeds, in the order in which they are tried.
pub const DEFAULT_SEEDS: [u64; 8] = [1, 2, 3, 4, 5, 6, 7, 8];

/// The percentage of a table that is taken.
pub const DEFAULT_ALPHA: u32 = 98;

/// The number of buckets, in hundredths of the keys over their logarithm.
pub const DEFAULT_C: u32 = 700;

/// How hashes are spread over buckets.
pub const DEFAULT_MAP: Map = Map::Skewed;

/// The number of partitions.
pub const DEFAULT_PARTITIONS: u32 = 1;

/// The number of pilots that are tried for a bucket.
pub const DEFAULT_PILOTS: u64 = 16_777_216;

/// The number of workers.
pub const DEFAULT_WORKERS: u32 = 4;

/// How pilots are kept.
pub const DEFAULT_ENCODING: Encoding = Encoding {
    front: Code::Dict,
    back: Some(Code::Dict),
};

/// The number of blocks of memory: 0 for all that the records need.
pub const DEFAULT_BLOCKS: u32 = 0;

/// What a build needs: the seeds in the order in which they are tried, the shape, the number of partitions, the number
/// of pilots that are tried for a bucket, and how they are searched.
#[derive(Debug, Drop)]
pub struct Settings {
    pub seeds: Vec<u64>,
    pub shape: Shape,
    pub parts: u32,
    pub limit: u64,
    pub how: How,
    pub ghost some_seed: { 1 ≤ length seeds.items },
    pub ghost few_seeds: { length seeds.items ≤ MAX_SEEDS },
    pub ghost some_partition: { 1 ≤ parts },
    pub ghost few_partitions: { parts ≤ MAX_PARTITIONS },
    pub ghost some_pilot: { 1 ≤ limit },
    pub ghost few_pilots: { limit ≤ MAX_PILOTS },
    pub ghost some_worker: { 1 ≤ workers_of how },
    pub ghost few_workers: { workers_of how ≤ MAX_WORKERS },
}
