// Indexes that were built, written in each encoding and read again.
use crate::files::MARKED_FILE;
use bucket_map::{Map, Shape};
use hem_build::{How, Settings, build_keys};
use index_file::{Built, Code, Encoding, read_index, write_index};
use pth_outside::KeyList;
use std::fmt::Write;
use std::process::Abort;
use std::sync::Wait;
use std::test::*;
use std::thread::Threads;
use turn_search::FreeGate;

// The keys k0, k1 and so on, this many.
fn numbered<R: Abort + AllocGlobal>(rt: &R, count: u64) -> Result<KeyList, Fail> {
    let mut keys = KeyList::new(rt.alloc());
    for number in 0..count {
        let mut key = String::new(rt.alloc());
        write!(key, "k{number}")?;
        assert!(rt; key.len() <= 65_535);
        keys.push(key.as_bytes())?;
    }
    Ok(keys)
}

// Builds the index of some keys at seed 1.
fn built<R: Abort + AllocGlobal + Threads + Wait + Sync>(
    rt: &R,
    keys: &KeyList,
    map: Map,
    parts: u32,
) -> Result<Built, Fail> {
    assert!(rt; 1 <= parts);
    assert!(rt; parts <= 4096);
    assert!(rt; 1 <= keys.len());
    assert!(rt; keys.len() <= 67_108_864);
    let settings = Settings {
        seeds: Vec::from_slice(rt.alloc(), &[1])?,
        shape: Shape {
            alpha: 98,
            c: 700,
            map,
        },
        parts,
        limit: 16_777_216,
        how: How::Alone,
    };
    match build_keys(rt, rt.alloc(), keys, &settings, &FreeGate) {
        Ok(index) => Ok(index),
        Err(_) => panic!(rt; "no index"),
    }
}

// The last number of a file.
fn digest(rt: &impl Abort, file: &[u8]) -> u64 {
    assert!(rt; file.len() >= 8);
    let end = &file[file.len() - 8..];
    u64::from_le_bytes([
        end[0], end[1], end[2], end[3], end[4], end[5], end[6], end[7],
    ])
}

// The keys have the values below their count in the index that a file is, each its own, as when it was built.
fn reads_again<R: Abort + AllocGlobal>(
    rt: &R,
    keys: &KeyList,
    index: &Built,
    file: &[u8],
) -> Result<(), Fail> {
    let read = read_index(rt.alloc(), file)?;
    let mut taken = Vec::new(rt.alloc());
    for _ in 0..keys.len() {
        taken.push(false)?;
    }
    for i in 0..keys.len() {
        let key = keys.key(i);
        assert_eq!(rt; read.lookup(key), index.lookup(key));
        match read.lookup(key) {
            Some(value) => {
                assert!(rt; value < taken.len() as u64);
                assert!(rt; !taken[value as usize]);
                taken[value as usize] = true;
            }
            None => panic!(rt; "key {i} has no value"),
        }
    }
    Ok(())
}

const CODES: [Code; 4] = [Code::Compact, Code::Parted, Code::Dict, Code::EliasFano];

const BACKS: [Option<Code>; 5] = [
    None,
    Some(Code::Compact),
    Some(Code::Parted),
    Some(Code::Dict),
    Some(Code::EliasFano),
];

// By front and back code, how many bytes the file of k0 to k399 in 3 partitions has, and its digest.
const FILES_OF_400: [[(usize, u64); 5]; 4] = [
    [
        (536, 980_002_088_090_449_621),
        (520, 12_860_202_445_413_117_794),
        (520, 8_001_136_061_922_737_408),
        (880, 17_629_605_488_490_880_048),
        (440, 936_252_386_337_191_761),
    ],
    [
        (536, 3_696_185_698_839_313_654),
        (520, 4_536_195_249_742_011_589),
        (520, 8_141_793_047_193_517_106),
        (880, 11_199_065_458_308_164_472),
        (440, 8_974_020_777_262_499_179),
    ],
    [
        (896, 2_197_081_602_967_409_858),
        (688, 14_325_338_129_611_895_848),
        (688, 10_534_544_344_685_927_546),
        (1048, 14_887_385_890_886_897_602),
        (608, 8_942_852_426_649_642_696),
    ],
    [
        (392, 3_654_490_840_541_215_241),
        (504, 1_660_348_893_878_403_825),
        (504, 13_110_434_392_802_911_612),
        (864, 2_869_273_852_444_962_288),
        (424, 671_918_372_164_239_261),
    ],
];

// Their files are those of an independent program, and each of them and of greater builds is read again.
#[test]
fn each_encoding_is_read_again(rt: HostRuntime) -> Result<(), Fail> {
    let few = numbered(&rt, 400)?;
    let many = numbered(&rt, 2000)?;
    let small = built(&rt, &few, Map::Skewed, 3)?;
    let skewed = built(&rt, &many, Map::Skewed, 8)?;
    let uniform = built(&rt, &many, Map::Uniform, 8)?;
    for (front, files) in CODES.into_iter().zip(FILES_OF_400) {
        for (back, (bytes, end)) in BACKS.into_iter().zip(files) {
            let enc = Encoding { front, back };
            let mut file = Vec::new(rt.alloc());
            write_index(&small, enc, &mut file)?;
            assert_eq!(rt; file.len(), bytes, "{enc:?}");
            assert_eq!(rt; digest(&rt, &file), end, "{enc:?}");
            for index in [&skewed, &uniform] {
                let mut out = Vec::from_slice(rt.alloc(), &[7])?;
                write_index(index, enc, &mut out)?;
                assert_eq!(rt; out[..1], [7][..]);
                reads_again(&rt, &many, index, &out[1..])?;
            }
        }
    }
    Ok(())
}

// The file of one empty key, under both maps.
#[test]
fn the_empty_key_has_its_file(rt: HostRuntime) -> Result<(), Fail> {
    let mut keys = KeyList::new(rt.alloc());
    keys.push(b"")?;
    for (map, number) in [(Map::Skewed, 0), (Map::Uniform, 1)] {
        let index = built(&rt, &keys, map, 1)?;
        for (front, back, len) in [
            (Code::Dict, Some(Code::Dict), 160),
            (Code::Compact, None, 112),
            (Code::Parted, None, 112),
            (Code::EliasFano, None, 112),
            (Code::Dict, None, 128),
        ] {
            let mut file = Vec::new(rt.alloc());
            write_index(&index, Encoding { front, back }, &mut file)?;
            assert_eq!(rt; file.len(), len);
            assert!(rt; file.len() >= 112);
            assert_eq!(rt; file[..5], MARKED_FILE[..5]);
            assert_eq!(rt; file[7], number);
            assert_eq!(rt; file[8..72], MARKED_FILE[8..72]);
            if file.len() >= 160 {
                assert_eq!(rt; file[72..152], MARKED_FILE[72..152]);
                if number == 0 {
                    assert_eq!(rt; file[..], MARKED_FILE[..]);
                }
            }
            reads_again(&rt, &keys, &index, &file)?;
        }
    }
    Ok(())
}
