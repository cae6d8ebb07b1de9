// The parts that are timed.

use crate::input::{KEY_LEN, keys, records, records_of_keys};
use bucket_map::{Buckets, MAX_KEYS, Map, Record, Shape, bucket_count, ordered_buckets};
use murmur64::hash_pair;
use part_function::{How, Part, build_part};
use std::alloc::Global;
use std::io;
use std::rt::Clock;
use std::sync::Wait;
use std::thread::Threads;
use std::time::Instant;
use turn_search::FreeGate;

// The seed of all hashes.
const SEED: u64 = 1;

// How many pilots may be tried for a bucket: as many as without words.
const PILOTS: u64 = 16_777_216;

// The shape that a list has without words.
const SHAPE: Shape = Shape {
    alpha: 98,
    c: 700,
    map: Map::Skewed,
};

// How long a part took, and a checksum of its answers.
#[derive(Drop)]
pub(crate) struct Timed {
    pub(crate) nanos: u128,
    pub(crate) checksum: u64,
}

// Nothing but the records, for what they take of memory.
pub(crate) fn time_records(alloc: Global, count: u32) -> io::Result<Timed> {
    let records = records(alloc, count)?;
    Ok(Timed {
        nanos: 0,
        checksum: records.len() as u64,
    })
}

// The buckets of random records, in the order of a search.
pub(crate) fn time_buckets(clock: &impl Clock, alloc: Global, count: u32) -> io::Result<Timed> {
    let records = records(alloc, count)?;
    let start = Instant::now(clock)?;
    let buckets = buckets_of(alloc, &records)?;
    let nanos = start.elapsed(clock)?.as_nanos();
    let mut checksum = 0u64;
    for rank in 0..buckets.len() {
        checksum = sum_with(checksum, buckets.members(rank));
    }
    Ok(Timed { nanos, checksum })
}

// The buckets of some records, if there are as many as a list may have.
fn buckets_of(alloc: Global, records: &[Record]) -> io::Result<Buckets> {
    let n = records.len() as u64;
    if n == 0 || n > MAX_KEYS {
        return Err(io::Error::from(io::ErrorKind::InvalidInput));
    }
    match ordered_buckets(alloc, records, SHAPE.map, bucket_count(n, SHAPE.c)) {
        Ok(buckets) => Ok(buckets),
        Err(_) => Err(io::Error::from(io::ErrorKind::OutOfMemory)),
    }
}

// The build of a partition of random records.
pub(crate) fn time_build<R: Clock + Threads + Wait + Sync>(
    rt: &R,
    alloc: Global,
    count: u32,
) -> io::Result<Timed> {
    let records = records(alloc, count)?;
    let start = Instant::now(rt)?;
    let part = part_of(rt, alloc, &records)?;
    let nanos = start.elapsed(rt)?.as_nanos();
    Ok(Timed {
        nanos,
        checksum: sum_with(0, &part.pilots) ^ sum_of_entries(&part),
    })
}

// The partition of some records, searched by one worker.
fn part_of<R: Threads + Wait + Sync>(
    rt: &R,
    alloc: Global,
    records: &[Record],
) -> io::Result<Part> {
    if records.len() as u64 > MAX_KEYS {
        return Err(io::Error::from(io::ErrorKind::InvalidInput));
    }
    match build_part(
        rt,
        alloc,
        records,
        SHAPE,
        SEED,
        PILOTS,
        How::Alone,
        &FreeGate,
    ) {
        Ok(Ok(part)) => Ok(part),
        Ok(Err(_)) => Err(io::Error::from(io::ErrorKind::InvalidInput)),
        Err(_) => Err(io::Error::from(io::ErrorKind::OutOfMemory)),
    }
}

// Each key of the list is hashed and its value taken; no key has a value near that of the next one.
pub(crate) fn time_lookups<R: Clock + Threads + Wait + Sync>(
    rt: &R,
    alloc: Global,
    count: u32,
) -> io::Result<Timed> {
    let text = keys(alloc, count)?;
    let part = part_of(rt, alloc, &records_of_keys(alloc, &text, SEED)?)?;
    let start = Instant::now(rt)?;
    let checksum = sum_of_values(&part, &text);
    let nanos = start.elapsed(rt)?.as_nanos();
    Ok(Timed { nanos, checksum })
}

// A checksum of the values of keys.
fn sum_of_values(part: &Part, text: &[u8]) -> u64 {
    let mut sum = 0u64;
    for key in text.chunks_exact(KEY_LEN) {
        if let Some(value) = part.value(SHAPE.map, hash_pair(key, SEED), SEED) {
            sum = sum.wrapping_mul(31).wrapping_add(value);
        }
    }
    sum
}

// A checksum of the entries of a free list.
fn sum_of_entries(part: &Part) -> u64 {
    let mut sum = 0u64;
    for i in 0..part.free.len() {
        if let Some(entry) = part.free.get(i) {
            sum = sum.wrapping_mul(31).wrapping_add(entry);
        }
    }
    sum
}

// A checksum that goes on with some numbers.
fn sum_with(sum: u64, numbers: &[u64]) -> u64 {
    let mut sum = sum;
    for number in numbers {
        sum = sum.wrapping_mul(31).wrapping_add(*number);
    }
    sum
}
