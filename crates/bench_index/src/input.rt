// The keys that are indexed, and the index that is built of them.
use bucket_map::{MAX_KEYS, MAX_PARTITIONS, Map, Shape};
use hem_build::{Built, How, Settings, build_keys};
use pth_outside::KeyList;
use std::alloc::Global;
use std::io;
use std::sync::Wait;
use std::thread::Threads;
use turn_search::FreeGate;

// SplitMix64 (Steele, Lea and Flood, OOPSLA 2014).
#[derive(Drop)]
pub(crate) struct Numbers {
    pub(crate) state: u64,
}

impl Numbers {
    pub(crate) fn next(&mut self) -> u64 {
        self.state = self.state.wrapping_add(0x9e37_79b9_7f4a_7c15);
        let z = (self.state ^ (self.state >> 30)).wrapping_mul(0xbf58_476d_1ce4_e5b9);
        let z = (z ^ (z >> 27)).wrapping_mul(0x94d0_49bb_1331_11eb);
        z ^ (z >> 31)
    }
}

pub(crate) fn out_of_memory() -> io::Error {
    io::Error::from(io::ErrorKind::OutOfMemory)
}

// A random number below a bound.
pub(crate) fn place_below(numbers: &mut Numbers, bound: u32) -> u32 {
    (((numbers.next() >> 32).wrapping_mul(u64::from(bound))) >> 32) as u32
}

// The key with a number: 16 bytes, of which the last eight are other ones for each number.
pub(crate) fn key_of(number: u32) -> [u8; 16] {
    let word = u64::from(number).wrapping_mul(0x9e37_79b9_7f4a_7c15);
    let a = (word ^ (word >> 29)).to_le_bytes();
    let b = word.to_le_bytes();
    [
        a[0], a[1], a[2], a[3], a[4], a[5], a[6], a[7], b[0], b[1], b[2], b[3], b[4], b[5], b[6],
        b[7],
    ]
}

fn keys_of(alloc: Global, count: u32) -> io::Result<KeyList> {
    let mut keys = KeyList::new(alloc);
    for number in 0..count {
        let key = key_of(number);
        if keys.push(&key).is_err() {
            return Err(out_of_memory());
        }
    }
    Ok(keys)
}

// The index of so many keys in so many partitions, at seed 1 or at seed 2.
pub(crate) fn built_of<R: AllocGlobal + Threads + Wait + Sync>(
    rt: &R,
    count: u32,
    parts: u32,
) -> io::Result<Built> {
    let keys = keys_of(rt.alloc(), count)?;
    if keys.len() < 1 || keys.len() > MAX_KEYS {
        return Err(io::Error::from(io::ErrorKind::InvalidInput));
    }
    if parts < 1 || parts > MAX_PARTITIONS {
        return Err(io::Error::from(io::ErrorKind::InvalidInput));
    }
    let settings = Settings {
        seeds: Vec::from_slice(rt.alloc(), &[1, 2])?,
        shape: Shape {
            alpha: 98,
            c: 700,
            map: Map::Skewed,
        },
        parts,
        limit: 16_777_216,
        how: How::Alone,
    };
    match build_keys(rt, rt.alloc(), &keys, &settings, &FreeGate) {
        Ok(built) => Ok(built),
        Err(_) => Err(out_of_memory()),
    }
}
