// The parts before the search that are timed.

use crate::input::{bytes, records};
use bucket_map::{Buckets, MAX_KEYS, Map, Record, bucket_count, ordered_buckets};
use murmur64::{hash_pair, murmur64};
use std::alloc::Global;
use std::io;
use std::rt::Clock;
use std::time::Instant;

// The number of buckets, in hundredths of the records over their logarithm.
const BUCKETS: u32 = 700;

// The bytes of a key.
const KEY_LEN: usize = 16;

// How long a part took, and a checksum of its answers.
#[derive(Drop)]
pub(crate) struct Timed {
    pub(crate) nanos: u128,
    pub(crate) checksum: u64,
}

// The hash of a text of so many bytes.
pub(crate) fn time_murmur64(alloc: Global, clock: &impl Clock, count: u32) -> io::Result<Timed> {
    let text = bytes(alloc, count)?;
    let start = Instant::now(clock)?;
    let checksum = murmur64(&text, 1);
    let nanos = start.elapsed(clock)?.as_nanos();
    Ok(Timed { nanos, checksum })
}

// The pairs of hashes of the keys in a text of so many bytes.
pub(crate) fn time_pairs(alloc: Global, clock: &impl Clock, count: u32) -> io::Result<Timed> {
    let text = bytes(alloc, count)?;
    let start = Instant::now(clock)?;
    let checksum = pairs_of(&text);
    let nanos = start.elapsed(clock)?.as_nanos();
    Ok(Timed { nanos, checksum })
}

// The pairs of the keys of 16 bytes of which a text is made.
fn pairs_of(text: &[u8]) -> u64 {
    let mut checksum = 0;
    for key in text.chunks_exact(KEY_LEN) {
        let pair = hash_pair(key, 1);
        checksum ^= pair.a.wrapping_add(pair.b);
    }
    checksum
}

// The buckets of random records, in the order of a search.
pub(crate) fn time_buckets(alloc: Global, clock: &impl Clock, count: u32) -> io::Result<Timed> {
    let records = records(alloc, count)?;
    let start = Instant::now(clock)?;
    let buckets = buckets_of(alloc, &records)?;
    let nanos = start.elapsed(clock)?.as_nanos();
    Ok(Timed {
        nanos,
        checksum: checksum_of(&buckets),
    })
}

// The buckets of some records, if there are as many as a list may have.
fn buckets_of(alloc: Global, records: &[Record]) -> io::Result<Buckets> {
    let n = records.len() as u64;
    if n == 0 || n > MAX_KEYS {
        return Err(invalid_input());
    }
    match ordered_buckets(alloc, records, Map::Skewed, bucket_count(n, BUCKETS)) {
        Ok(buckets) => Ok(buckets),
        Err(_) => Err(out_of_memory()),
    }
}

// The error where memory ran out.
pub(crate) fn out_of_memory() -> io::Error {
    io::Error::from(io::ErrorKind::OutOfMemory)
}

// The error of a name or a number that no part takes.
pub(crate) fn invalid_input() -> io::Error {
    io::Error::from(io::ErrorKind::InvalidInput)
}

// A checksum of the buckets by rank, with their members.
fn checksum_of(buckets: &Buckets) -> u64 {
    let mut checksum = 0u64;
    for rank in 0..buckets.len() {
        checksum = checksum.wrapping_mul(31).wrapping_add(buckets.bucket(rank));
        for member in buckets.members(rank) {
            checksum ^= *member;
        }
    }
    checksum
}
