// Random input, the same in each run.

use bucket_map::Record;
use std::alloc::{AllocError, Global};

// A generator of numbers: SplitMix64 (Steele, Lea and Flood, OOPSLA 2014).
#[derive(Drop)]
struct Numbers {
    state: u64,
}

impl Numbers {
    fn next(&mut self) -> u64 {
        self.state = self.state.wrapping_add(0x9e37_79b9_7f4a_7c15);
        let z = (self.state ^ (self.state >> 30)).wrapping_mul(0xbf58_476d_1ce4_e5b9);
        let z = (z ^ (z >> 27)).wrapping_mul(0x94d0_49bb_1331_11eb);
        z ^ (z >> 31)
    }
}

// So many random bytes.
pub(crate) fn bytes(alloc: Global, count: u32) -> Result<Vec<u8>, AllocError> {
    let mut numbers = Numbers { state: 1 };
    let mut bytes = Vec::with_capacity(alloc, count as usize)?;
    for _ in 0..count {
        bytes.push((numbers.next() >> 56) as u8)?;
    }
    Ok(bytes)
}

// So many records of random pairs.
pub(crate) fn records(alloc: Global, count: u32) -> Result<Vec<Record>, AllocError> {
    let mut numbers = Numbers { state: 1 };
    let mut records = Vec::with_capacity(alloc, count as usize)?;
    for ordinal in 0..count {
        let a = numbers.next();
        let b = numbers.next();
        records.push(Record {
            a,
            b,
            ordinal: u64::from(ordinal),
        })?;
    }
    Ok(records)
}

// Records of which the last has the pair of the first.
pub(crate) fn records_with_a_repeat(alloc: Global, count: u32) -> Result<Vec<Record>, AllocError> {
    let mut records = records(alloc, count)?;
    if records.len() > 1 {
        let last = records.len() - 1;
        let Record { a, b, .. } = records[0];
        records[last] = Record {
            a,
            b,
            ordinal: last as u64,
        };
    }
    Ok(records)
}

// Records of which the first so many are of one bucket.
pub(crate) fn records_of_one_bucket(
    alloc: Global,
    members: u32,
    count: u32,
) -> Result<Vec<Record>, AllocError> {
    let mut records = records(alloc, count)?;
    for i in 0..records.len().min(members as usize) {
        records[i].a = 0;
    }
    Ok(records)
}

// Second hashes of the keys of one bucket.
pub(crate) fn members(alloc: Global, count: u32) -> Result<Vec<u64>, AllocError> {
    let mut numbers = Numbers { state: 1 };
    let mut members = Vec::with_capacity(alloc, count as usize)?;
    for _ in 0..count {
        members.push(numbers.next())?;
    }
    Ok(members)
}
