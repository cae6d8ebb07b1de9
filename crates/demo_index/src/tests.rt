// Keys and lengths that an independent program gave.
use super::*;
use crate::trial::sum_in_file;
use hem_build::{How, Map, Settings, Shape, build_keys};
use std::process::Abort;
use std::sync::Wait;
use std::test::*;
use std::thread::Threads;
use turn_search::FreeGate;

#[test]
fn keys_are_those_of_an_independent_program(rt: HostRuntime) -> Result<(), Fail> {
    let keys = demo_keys(rt.alloc(), 40, 3).ok().ok_or("memory")?;
    assert_eq!(rt; keys.len(), 40);
    for (number, want) in [
        (0, b"29de944e0037abd2".as_slice()),
        (1, b"1be1cf92bd40fd85"),
        (2, b"7ab6ca98a9ae652d"),
        (38, b"25e9b662faee53e9"),
        (39, b"ba11aa2bd527c757"),
    ] {
        assert!(rt; number < keys.len());
        assert_eq!(rt; keys.key(number), want, "key {number}");
    }
    Ok(())
}

// Tries the index of some demonstration keys at seed 1.
fn tried<R: Abort + AllocGlobal + Threads + Wait + Sync>(
    rt: &R,
    count: u64,
    seed: u64,
) -> Result<Vec<Tried>, Fail> {
    let settings = Settings {
        seeds: Vec::from_slice(rt.alloc(), &[1])?,
        shape: Shape {
            alpha: 98,
            c: 700,
            map: Map::Skewed,
        },
        parts: 1,
        limit: 16_777_216,
        how: How::Alone,
    };
    let keys = demo_keys(rt.alloc(), count, seed).ok().ok_or("memory")?;
    assert!(rt; 1 <= keys.len());
    assert!(rt; keys.len() <= 1_000_000);
    match build_keys(rt, rt.alloc(), &keys, &settings, &FreeGate) {
        Ok(index) => Ok(
            try_encodings(rt.alloc(), &index, &keys)
                .ok()
                .ok_or("memory")?,
        ),
        Err(_) => panic!(rt; "no index"),
    }
}

// The index of one empty key in the first version, as an independent program wrote it.
const ONE_KEY: [u64; 18] = [
    0x0003_0301_5848_5450,
    1,
    1,
    98,
    700,
    1,
    1,
    1,
    0,
    1,
    0,
    1,
    0,
    1,
    0,
    0,
    3,
    0x42df_603a_c13b_8244,
];

const CODES_OF: [Code; 4] = [Code::Compact, Code::Parted, Code::Dict, Code::EliasFano];

#[test]
fn lengths_and_sums_are_those_of_an_independent_program(rt: HostRuntime) -> Result<(), Fail> {
    let alone = [128, 128, 160, 120];
    let pairs = [
        [144, 144, 176, 136],
        [144, 144, 176, 136],
        [168, 168, 200, 160],
        [144, 144, 176, 136],
    ];
    let all = tried(&rt, 10, 5)?;
    assert_eq!(rt; all.len(), 20);
    for i in 0..4 {
        let front = CODES_OF[i];
        let want = Tried {
            enc: Encoding { front, back: None },
            bytes: alone[i],
            sum: 45,
        };
        assert_eq!(rt; all[i], want);
        for j in 0..4 {
            let enc = Encoding {
                front,
                back: Some(CODES_OF[j]),
            };
            let want = Tried {
                enc,
                bytes: pairs[i][j],
                sum: 45,
            };
            assert_eq!(rt; all[4 + 4 * i + j], want);
        }
    }
    Ok(())
}

#[test]
fn the_sum_is_that_of_the_numbers_below_n(rt: HostRuntime) -> Result<(), Fail> {
    for (count, seed, sum) in [(1, 0, 0), (2, 7, 1), (100, u64::MAX, 4950)] {
        for tried in &tried(&rt, count, seed)? {
            assert_eq!(rt; tried.sum, sum, "{count} keys");
        }
    }
    Ok(())
}

// The sum comes from the file alone: of one that another program wrote it is its own, and of a broken one there is none.
#[test]
fn the_sum_is_read_from_the_file(rt: HostRuntime) -> Result<(), Fail> {
    let keys = demo_keys(rt.alloc(), 1, 1).ok().ok_or("memory")?;
    assert!(&rt; keys.len() <= 1_000_000);
    let mut file = Vec::new(rt.alloc());
    for number in ONE_KEY {
        file.extend_from_slice(&number.to_le_bytes())?;
    }
    assert_eq!(&rt; sum_in_file(rt.alloc(), &file, &keys), Ok(0));
    let _ = file.pop();
    assert!(&rt; sum_in_file(rt.alloc(), &file, &keys).is_err());
    Ok(())
}
