// Random input, the same in each run.

use bucket_map::Record;
use murmur64::{HashPair, hash_pair};
use std::alloc::{AllocError, Global};

// The bytes of a key.
pub(crate) const KEY_LEN: usize = 16;

// A generator of numbers: SplitMix64 (Steele, Lea and Flood, OOPSLA 2014).
#[derive(Drop)]
struct Numbers {
    state: u64,
}

impl Numbers {
    fn next(&mut self) -> u64 {
        self.state = self.state.wrapping_add(0x9e37_79b9_7f4a_7c15);
        let z = (self.state ^ (self.state >> 30)).wrapping_mul(0xbf58_476d_1ce4_e5b9);
        let z = (z ^ (z >> 27)).wrapping_mul(0x94d0_49bb_1331_11eb);
        z ^ (z >> 31)
    }
}

// So many records of random pairs.
pub(crate) fn records(alloc: Global, count: u32) -> Result<Vec<Record>, AllocError> {
    let mut numbers = Numbers { state: 1 };
    let mut records = Vec::with_capacity(alloc, count as usize)?;
    for ordinal in 0..count {
        let a = numbers.next();
        let b = numbers.next();
        records.push(Record {
            a,
            b,
            ordinal: u64::from(ordinal),
        })?;
    }
    Ok(records)
}

// The bytes of so many keys, one after another.
pub(crate) fn keys(alloc: Global, count: u32) -> Result<Vec<u8>, AllocError> {
    let mut numbers = Numbers { state: 1 };
    let mut text = Vec::new(alloc);
    for _ in 0..count {
        for _ in 0..KEY_LEN {
            text.push((numbers.next() >> 56) as u8)?;
        }
    }
    Ok(text)
}

// The records of keys at a seed, whose ordinals count for nothing here.
pub(crate) fn records_of_keys(
    alloc: Global,
    text: &[u8],
    seed: u64,
) -> Result<Vec<Record>, AllocError> {
    let mut records = Vec::new(alloc);
    for key in text.chunks_exact(KEY_LEN) {
        let HashPair { a, b } = hash_pair(key, seed);
        records.push(Record { a, b, ordinal: 0 })?;
    }
    Ok(records)
}
