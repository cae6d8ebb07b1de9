//! How many buckets and positions serve a list of keys, and its records in buckets, the largest first.
#![tactic(auto)]

mod bucket_divisors;
mod clash;
mod group;
mod near;
mod order;
mod partition;
mod sizes;
#[cfg(test)]
mod tests;

pub use crate::bucket_divisors::BucketDivisors;
pub use crate::clash::{least_clash, least_repeat};
pub use crate::order::{Buckets, NoMemory, ordered_buckets};
pub use crate::partition::{Partitions, cut_records, partitioned};
pub use crate::sizes::{Shape, bucket_count, bucket_of, front_count, partition_of, table_size};
pub use pthash::{
    MAX_ALPHA, MAX_BUCKETS, MAX_C, MAX_KEYS, MAX_PARTITIONS, MAX_PILOTS, MAX_POSITIONS, MIN_ALPHA,
    MIN_C, Map, Record,
};
