// Small partitions worked by hand, free lists beside those of an independent program, and how a search is run.

use bucket_map::{Map, Record, Shape};
use murmur64::{HashPair, hash_pair};
use part_function::{How, NoMemory, Part, build_part, build_part_with, free_list};
use pilot_search::{Occupancy, Scratch, Stuck, place_one};
use std::alloc::Global;
use std::process::Abort;
use std::test::Fail;
use turn_search::FreeGate;

// The seed at which pilot 0 has the hash 0, so that a position is a second hash modulo the size.
const SEED_OF_ZERO: u64 = 3_829_533_694_005_038_248;

const SHAPE: Shape = Shape {
    alpha: 98,
    c: 700,
    map: Map::Skewed,
};

// A pair of hashes of a key, of which no more is known.
fn record(a: u64, b: u64) -> Record {
    Record { a, b, ordinal: 0 }
}

#[test]
fn no_record_has_no_value(rt: HostRuntime) -> Result<(), Fail> {
    match build_part(&rt, rt.alloc(), &[], SHAPE, 1, 1, How::Alone, &FreeGate)? {
        Ok(part) => {
            assert_eq!(rt; part.n, 0);
            assert_eq!(rt; part.bucket_count(), 0);
            assert_eq!(rt; part.table_size(), 0);
            let pair = HashPair { a: 5, b: 7 };
            assert_eq!(rt; part.value(Map::Skewed, pair, 1), None);
            assert_eq!(rt; part.value(Map::Uniform, pair, 1), None);
        }
        Err(_) => panic!(rt; "no record is stuck"),
    }
    Ok(())
}

#[test]
fn one_record_has_the_value_zero(rt: HostRuntime) -> Result<(), Fail> {
    let records = [record(0, 0)];
    match build_part(
        &rt,
        rt.alloc(),
        &records,
        SHAPE,
        SEED_OF_ZERO,
        1,
        How::Alone,
        &FreeGate,
    )? {
        Ok(part) => {
            assert_eq!(rt; part.n, 1);
            assert_eq!(rt; part.pilots.as_slice(), [0; 7].as_slice());
            assert_eq!(rt; part.bucket_count(), 7);
            assert_eq!(rt; part.table_size(), 3);
            assert_eq!(rt; part.free.len(), 2);
            assert_eq!(rt; part.free.get(0), Some(0));
            assert_eq!(rt; part.free.get(1), Some(0));
            for b in [0, 1] {
                let pair = HashPair { a: 0, b };
                assert_eq!(rt; part.value(Map::Skewed, pair, SEED_OF_ZERO), Some(0));
            }
        }
        Err(_) => panic!(rt; "one record is stuck"),
    }
    Ok(())
}

#[test]
fn a_taken_position_is_stuck(rt: HostRuntime) -> Result<(), Fail> {
    let records = [record(0, 0), record(2, 3)];
    let mut scratch = Scratch::with(rt.alloc(), 0)?;
    let hows = [How::Alone, How::Rounds(1), How::Rounds(2), How::Turns(4)];
    for how in hows {
        let alone = build_part(
            &rt,
            rt.alloc(),
            &records,
            SHAPE,
            SEED_OF_ZERO,
            1,
            how,
            &FreeGate,
        )?;
        let lent = build_part_with(
            &rt,
            rt.alloc(),
            &records,
            SHAPE,
            SEED_OF_ZERO,
            1,
            how,
            &mut scratch,
            &FreeGate,
        )?;
        for answer in [alone, lent] {
            match answer {
                Ok(_) => panic!(rt; "a part without a free position"),
                Err(stuck) => assert_eq!(rt; stuck, Stuck { rank: 1, bucket: 2 }),
            }
        }
    }
    Ok(())
}

// The size of a table, its free positions, and its free list; a list that is empty is a dash.
const FREE_LISTS: [&str; 34] = [
    "1 0 0",
    "1 - -",
    "2 1 0",
    "3 1,2 0,0",
    "3 2 0",
    "3 1 1",
    "5 0,3 0,0",
    "5 0,1 0,1",
    "5 - -",
    "9 5,6 5,6",
    "9 0,3 0,3",
    "9 0,5 0,5",
    "11 9 9",
    "11 6 6",
    "11 2 2",
    "20 4,8,12,16 4,4,8,12",
    "20 6,9,17,19 6,9,9,9",
    "20 2,7,9,18 2,7,9,9",
    "41 0 0",
    "41 20 20",
    "41 36 36",
    "77 2,4,6,15,23,31,36,44,47,53,54,57,61,63,64,74,76 2,4,4,6,6,6,15,23,31,36,44,47,53,54,57,57,57",
    "77 2,15,17,20,24,26,29,35,43,46,52,54,60,61,65,71,73 2,2,2,15,17,20,20,24,26,29,35,43,43,46,46,52,54",
    "77 0,3,10,14,19,27,29,41,42,43,44,50,57,59,61,66,76 0,3,3,10,14,19,27,27,29,41,42,43,44,50,57,59,59",
    "7 0,1,2 0,1,2",
    "7 4,5,6 0,0,0",
    "7 0,5,6 0,0,0",
    "9 0,1,2 0,1,2",
    "9 6,7,8 0,0,0",
    "9 0,7,8 0,0,0",
    "6 1,3 1,3",
    "6 3,4 3,3",
    "6 2,5 2,2",
    "6 4,5 0,0",
];

// The numbers between commas.
fn numbers_of(alloc: Global, text: &str) -> Result<Vec<u64>, NoMemory> {
    let mut numbers = Vec::new(alloc);
    for word in text.split(',') {
        if let Ok(number) = word.parse::<u64>() {
            numbers.push(number)?;
        }
    }
    Ok(numbers)
}

// A table of a size all of whose positions are taken but these, and how many are taken.
fn table(
    rt: &impl Abort,
    alloc: Global,
    size: u64,
    free: &[u64],
) -> Result<(Occupancy, u64), NoMemory> {
    assert!(rt; 1 <= size && size <= 77);
    let mut members = Vec::new(alloc);
    for position in 0..size {
        if !free.contains(&position) {
            members.push(position)?;
        }
    }
    let count = members.len() as u64;
    assert!(rt; count <= size);
    let mut occupied = Occupancy::new(alloc, size)?;
    let mut scratch = Scratch::with(alloc, count)?;
    if count > 0 {
        let found = place_one(SEED_OF_ZERO, 1, &members, &mut occupied, &mut scratch);
        assert_eq!(rt; found, Some(0));
    }
    Ok((occupied, count))
}

#[test]
fn free_lists_are_those_of_an_independent_program(rt: HostRuntime) -> Result<(), Fail> {
    for row in FREE_LISTS {
        let mut words = row.split_whitespace();
        match (words.next(), words.next(), words.next()) {
            (Some(size), Some(free), Some(entries)) => {
                let size = size.parse::<u64>().unwrap_or(0);
                let free = numbers_of(rt.alloc(), free)?;
                let entries = numbers_of(rt.alloc(), entries)?;
                let (occupied, count) = table(&rt, rt.alloc(), size, &free)?;
                assert!(rt; count <= occupied.size());
                let list = free_list(rt.alloc(), &occupied, count)?;
                assert_eq!(rt; list.len(), entries.len() as u64, "{row}");
                for i in 0..list.len() {
                    assert_eq!(rt; list.get(i), entries.get(i as usize).copied(), "{row}");
                }
            }
            _ => panic!(rt; "a row of three words"),
        }
    }
    Ok(())
}

// The records of the numbers below a count, as keys.
fn records_of_numbers(alloc: Global, count: u64, seed: u64) -> Result<Vec<Record>, NoMemory> {
    let mut records = Vec::new(alloc);
    for ordinal in 0..count {
        let HashPair { a, b } = hash_pair(&ordinal.to_le_bytes(), seed);
        records.push(Record { a, b, ordinal })?;
    }
    Ok(records)
}

// Whether two partitions have the same pilots and the same free list.
fn are_equal(one: &Part, two: &Part) -> bool {
    if one.n != two.n || one.pilots != two.pilots || one.free.len() != two.free.len() {
        return false;
    }
    for i in 0..one.free.len() {
        if one.free.get(i) != two.free.get(i) {
            return false;
        }
    }
    true
}

#[test]
fn a_partition_is_the_same_however_it_is_searched(rt: HostRuntime) -> Result<(), Fail> {
    let mut scratch = Scratch::with(rt.alloc(), 0)?;
    for map in [Map::Skewed, Map::Uniform] {
        let shape = Shape {
            alpha: 98,
            c: 700,
            map,
        };
        for count in [40, 1500] {
            let records = records_of_numbers(rt.alloc(), count, count)?;
            assert!(rt; records.len() <= 1500);
            let alone = build_part(
                &rt,
                rt.alloc(),
                &records,
                shape,
                count,
                100_000,
                How::Alone,
                &FreeGate,
            )?;
            for how in [How::Alone, How::Rounds(1), How::Rounds(2), How::Turns(4)] {
                let other = build_part(
                    &rt,
                    rt.alloc(),
                    &records,
                    shape,
                    count,
                    100_000,
                    how,
                    &FreeGate,
                )?;
                let lent = build_part_with(
                    &rt,
                    rt.alloc(),
                    &records,
                    shape,
                    count,
                    100_000,
                    how,
                    &mut scratch,
                    &FreeGate,
                )?;
                match (&alone, other, lent) {
                    (Ok(part), Ok(other), Ok(lent)) => {
                        assert!(rt; are_equal(part, &other), "{count} records, {how:?}");
                        assert!(rt; are_equal(part, &lent), "{count} records, {how:?}");
                    }
                    _ => panic!(rt; "a search is stuck"),
                }
            }
        }
    }
    Ok(())
}
