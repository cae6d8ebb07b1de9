// Whole builds by each kind of search, beside those of an independent program.
mod values;

use crate::worker_count::worker_count;
use hem_build::{Built, Cause, How, KeyMark, MAX_KEYS, Map, Refusal, Settings, Shape, build_keys};
use murmur64::murmur64;
use pth_outside::KeyList;
use std::alloc::Global;
use std::fmt::Write;
use std::process::Abort;
use std::sync::Wait;
use std::test::Fail;
use std::thread::Threads;
use turn_search::FreeGate;

const SKEWED: Shape = Shape {
    alpha: 98,
    c: 700,
    map: Map::Skewed,
};

const UNIFORM: Shape = Shape {
    alpha: 98,
    c: 700,
    map: Map::Uniform,
};

const FULL: Shape = Shape {
    alpha: 100,
    c: 100,
    map: Map::Skewed,
};

// The stuck buckets of k0 to k1499 with one pilot to try, at the seeds 1 to 8.
const ONE_PILOT: [(u32, u64); 8] = [
    (0, 124),
    (0, 229),
    (0, 115),
    (0, 47),
    (0, 99),
    (0, 124),
    (0, 135),
    (0, 32),
];

const MARK_OF_A_B_C: KeyMark = KeyMark {
    sum: 0x84bb_8a9f_8455_96f0,
    xor: 0x91d9_c8a2_55bb_d1ed,
};

// A build by one thread, by rounds and by turns, each with few and with many workers.
const SEARCHES: [How; 7] = [
    How::Alone,
    How::Rounds(1),
    How::Rounds(2),
    How::Rounds(7),
    How::Turns(1),
    How::Turns(2),
    How::Turns(7),
];

// The keys k0, k1 and so on, this many.
fn numbered<R: Abort + AllocGlobal>(rt: &R, count: u64) -> Result<KeyList, Fail> {
    let mut keys = KeyList::new(rt.alloc());
    for number in 0..count {
        let mut key = String::new(rt.alloc());
        write!(key, "k{number}")?;
        assert!(rt; key.len() <= 65_535);
        keys.push(key.as_bytes())?;
    }
    Ok(keys)
}

// Builds the index of some keys.
fn built<R: Abort + AllocGlobal + Threads + Wait + Sync>(
    rt: &R,
    keys: &KeyList,
    seeds: &[u64],
    shape: Shape,
    parts: u32,
    limit: u64,
    how: How,
) -> Result<Result<Built, Refusal>, Fail> {
    assert!(rt; 1 <= seeds.len());
    assert!(rt; seeds.len() <= 16);
    assert!(rt; 1 <= parts);
    assert!(rt; parts <= 4096);
    assert!(rt; 1 <= limit);
    assert!(rt; limit <= 4_294_967_295);
    assert!(rt; 1 <= worker_count(how));
    assert!(rt; worker_count(how) <= 64);
    assert!(rt; 1 <= keys.len());
    assert!(rt; keys.len() <= MAX_KEYS);
    let settings = Settings {
        seeds: Vec::from_slice(rt.alloc(), seeds)?,
        shape,
        parts,
        limit,
        how,
    };
    Ok(build_keys(rt, rt.alloc(), keys, &settings, &FreeGate))
}

// The bucket that has no pilot, by partition, for each seed that is stuck; the first stuck partition decides.
#[test]
fn stuck_seeds_have_their_first_stuck_partition(rt: HostRuntime) -> Result<(), Fail> {
    for (count, parts, limit, searches, seeds, stuck) in [
        (
            90,
            8,
            7,
            SEARCHES.as_slice(),
            [103, 105].as_slice(),
            [(6, 25), (2, 6)].as_slice(),
        ),
        (90, 8, 7, &SEARCHES, &[110, 117], &[(3, 8), (3, 17)]),
        (100, 8, 1, &SEARCHES, &[1], &[(0, 1)]),
        (100, 8, 1, &[How::Turns(64)], &[1], &[(0, 1)]),
        (
            100,
            8,
            6,
            &SEARCHES,
            &[3, 40, 41],
            &[(0, 27), (1, 4), (0, 5)],
        ),
        (1500, 8, 2, &SEARCHES, &[1, 2], &[(0, 35), (0, 161)]),
        (
            1500,
            1,
            3,
            &SEARCHES,
            &[4, 9, 4],
            &[(0, 459), (0, 257), (0, 459)],
        ),
        (1500, 1, 1, &SEARCHES, &[1, 2, 3, 4, 5, 6, 7, 8], &ONE_PILOT),
    ] {
        let keys = numbered(&rt, count)?;
        for &how in searches {
            match built(&rt, &keys, seeds, SKEWED, parts, limit, how)? {
                Err(Refusal::SeedsExhausted { causes }) => {
                    assert_eq!(rt; causes.list.len(), stuck.len());
                    for (cause, &(part, bucket)) in causes.list.iter().zip(stuck) {
                        assert_eq!(rt; *cause, Cause::Stuck { part, bucket }, "{how:?}");
                    }
                }
                _ => panic!(rt; "seeds {seeds:?} by {how:?}"),
            }
        }
    }
    Ok(())
}

// The first seed fails, and the mark is that of the seed that succeeds.
#[test]
fn a_later_seed_succeeds_with_its_mark(rt: HostRuntime) -> Result<(), Fail> {
    let mut keys = KeyList::new(rt.alloc());
    for key in [b"a", b"b", b"c"] {
        keys.push(key)?;
    }
    for how in SEARCHES {
        match built(&rt, &keys, &[1, 2], SKEWED, 1, 1, how)? {
            Ok(index) => {
                assert_eq!(rt; index.seed, 2);
                assert_eq!(rt; index.n, 3);
                assert_eq!(rt; index.mark, MARK_OF_A_B_C, "{how:?}");
            }
            Err(_) => panic!(rt; "by {how:?}"),
        }
    }
    Ok(())
}

// Two keys that have the same pair of hashes at every seed, and a key that comes twice.
#[test]
fn clashes_are_told_from_repeats(rt: HostRuntime) -> Result<(), Fail> {
    for (list, repeat) in [
        ([TWINS[0].as_slice(), &TWINS[1], b"x"], false),
        ([b"a", b"b", b"a"], true),
    ] {
        let mut keys = KeyList::new(rt.alloc());
        for key in list {
            assert!(rt; key.len() <= 65_535);
            keys.push(key)?;
        }
        for how in SEARCHES {
            match built(&rt, &keys, &[1, 2], FULL, 4, 16_777_216, how)? {
                Err(Refusal::RepeatedKey { first, second }) => {
                    assert!(rt; repeat);
                    assert_eq!(rt; (first, second), (0, 2));
                }
                Err(Refusal::SeedsExhausted { causes }) => {
                    assert!(rt; !repeat);
                    for cause in &causes.list {
                        assert_eq!(rt;
                            *cause,
                            Cause::SameHash {
                                first: 0,
                                second: 1
                            }
                        );
                    }
                }
                _ => panic!(rt; "by {how:?}"),
            }
        }
    }
    Ok(())
}

const TWINS: [[u8; 16]; 2] = [
    [
        0x67, 0xec, 0x8e, 0x65, 0xa1, 0x8d, 0xeb, 0xbe, 0x5e, 0x55, 0x32, 0xfb, 0xee, 0xa2, 0x93,
        0xf8,
    ],
    [
        0x67, 0xec, 0x4b, 0x7f, 0x3c, 0x73, 0x93, 0x4d, 0x5e, 0x55, 0xef, 0x14, 0x8a, 0x88, 0x3b,
        0x87,
    ],
];
