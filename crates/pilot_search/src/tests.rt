// Searches worked by hand, and pilots and hashes of independent programs.

ghost use Rattle.std.specs.Prelude.{◌≡◌, ◌≤◌, length, IfOk};
ghost use Rattle.pthash.specs.Order.{most_members};
ghost use Rattle.pilot_search.specs.Outcome.{IsPlacedSoFar, IsPlaced};

use super::*;
use bucket_map::{Map, NoMemory, Record, ordered_buckets};
use std::alloc::Global;
use std::test::Fail;

// The seed at which pilot 0 has the hash 0, so that a position is a second hash modulo the size.
const SEED_OF_ZERO: u64 = 3_829_533_694_005_038_248;

const SIZE: u64 = 5;

pub(crate) const PILOTS: u64 = 16_777_216;

pub(crate) const ODD: u64 = 0x9e37_79b9_7f4a_7c15;

// A pair of hashes of a key, of which no more is known.
pub(crate) fn record(a: u64, b: u64) -> Record {
    Record { a, b, ordinal: 0 }
}

#[test]
fn searches_end_as_worked_by_hand(rt: HostRuntime) -> Result<(), Fail> {
    let placed = [record(0, 0), record(2, 1), record(1, 8)];
    let taken = [record(0, 0), record(2, 1), record(1, 6)];
    let repeated = [record(0, 0), record(2, 5)];
    let cases: [(&[Record], Result<(&[u64], &[u64]), Stuck>); 4] = [
        (&[], Ok((&[], &[]))),
        (&placed, Ok((&[0, 0], &[0, 1, 3]))),
        (&taken, Err(Stuck { rank: 1, bucket: 1 })),
        (&repeated, Err(Stuck { rank: 0, bucket: 0 })),
    ];
    for (records, outcome) in cases {
        assert!(rt; records.len() <= 5);
        let plan = Plan {
            seed: SEED_OF_ZERO,
            size: SIZE,
            limit: 1,
            buckets: ordered_buckets(rt.alloc(), records, Map::Skewed, 7)?,
        };
        let answers = [
            place(rt.alloc(), &plan)?,
            place_rounds(&rt, rt.alloc(), &plan, 2)?,
            place_rounds(&rt, rt.alloc(), &plan, 64)?,
        ];
        for answer in answers {
            match (answer, outcome) {
                (Ok(found), Ok((pilots, positions))) => {
                    assert_eq!(rt; found.pilots.as_slice(), pilots);
                    assert_eq!(rt; found.done, plan.ranks());
                    assert_eq!(rt; found.occupied.count(), positions.len() as u64);
                    for position in 0..SIZE {
                        assert!(rt; position < found.occupied.size());
                        assert_eq!(rt;
                            found.occupied.contains(position),
                            positions.contains(&position),
                            "position {position}"
                        );
                    }
                }
                (Err(stuck), Err(expected)) => assert_eq!(rt; stuck, expected),
                _ => panic!(rt; "a search ended otherwise"),
            }
        }
    }
    Ok(())
}

#[test]
fn one_bucket_after_another_without_a_plan(rt: HostRuntime) -> Result<(), Fail> {
    let mut occupied = Occupancy::new(rt.alloc(), SIZE)?;
    let mut scratch = Scratch::with(rt.alloc(), 2)?;
    let first = place_one(SEED_OF_ZERO, 1, &[0, 1], &mut occupied, &mut scratch);
    assert_eq!(rt; first, Some(0));
    assert_eq!(rt; scratch.positions(), [0, 1].as_slice());
    let second = place_one(SEED_OF_ZERO, 1, &[6], &mut occupied, &mut scratch);
    assert_eq!(rt; second, None);
    assert_eq!(rt; occupied.count(), 2);
    Ok(())
}

// The pilots are those of an independent program.
#[test]
fn pilots_of_one_bucket(rt: HostRuntime) -> Result<(), Fail> {
    let cases: [(u64, u64, u64, u64); 7] = [
        (16, ODD, 100, 2),
        (17, ODD, 100, 3),
        (40, ODD, 600, 4),
        (2000, 1, 2003, 30),
        (2000, 1, 2047, 13),
        (70_000, 1, 100_003, 1),
        (11, ODD, 11, 7029),
    ];
    for (count, factor, size, pilot) in cases {
        let mut members = Vec::new(rt.alloc());
        for i in 0..count {
            members.push(i.wrapping_mul(factor))?;
        }
        let room = members.len() as u64;
        assert!(rt; 1 <= room);
        assert!(rt; room <= 70_000);
        assert!(rt; 1 <= size);
        assert!(rt; size <= 100_003);
        let mut occupied = Occupancy::new(rt.alloc(), size)?;
        let mut scratch = Scratch::with(rt.alloc(), room)?;
        let found = place_one(1, PILOTS, &members, &mut occupied, &mut scratch);
        assert_eq!(rt; found, Some(pilot), "{count} members");
        assert_eq!(rt; occupied.count(), count, "{count} members");
    }
    Ok(())
}

// After 64 buckets of five members, whose pilots are high, those of one are placed in rounds. The pilots are those of an
// independent program.
#[test]
fn rounds_come_after_high_pilots(rt: HostRuntime) -> Result<(), Fail> {
    let mut records = Vec::new(rt.alloc());
    for i in 0..344 {
        let bucket: u64 = if i < 320 { i % 64 } else { i - 256 };
        records.push(record(bucket, i.wrapping_mul(ODD)))?;
    }
    assert!(rt; records.len() <= 344);
    let plan = Plan {
        seed: 1,
        size: 344,
        limit: PILOTS,
        buckets: ordered_buckets(rt.alloc(), &records, Map::Skewed, 294)?,
    };
    let last: [u64; 28] = [
        3468, 199_342, 198_391, 768_354, 26, 14, 3, 20, 4, 9, 2, 34, 42, 40, 12, 3, 0, 67, 13, 36,
        8, 69, 100, 358, 63, 207, 121, 679,
    ];
    let answers = [
        place(rt.alloc(), &plan)?,
        place_rounds(&rt, rt.alloc(), &plan, 2)?,
        place_rounds(&rt, rt.alloc(), &plan, 64)?,
    ];
    for answer in answers {
        match answer {
            Ok(found) => {
                let pilots = found.pilots.as_slice();
                assert_eq!(rt; pilots.len(), 88);
                assert_eq!(rt; &pilots[60..], last.as_slice());
            }
            Err(_) => panic!(rt; "the search is stuck"),
        }
    }
    Ok(())
}

#[test]
fn equal_members_have_no_pilot(rt: HostRuntime) -> Result<(), Fail> {
    for count in [2, 16, 17, 2000] {
        let mut members = Vec::new(rt.alloc());
        for i in 1..count {
            members.push(i)?;
        }
        members.push(1)?;
        assert!(rt; 1 <= members.len());
        assert!(rt; members.len() <= 2000);
        let mut occupied = Occupancy::new(rt.alloc(), 5003)?;
        let mut scratch = Scratch::with(rt.alloc(), 2000)?;
        let found = place_one(1, PILOTS, &members, &mut occupied, &mut scratch);
        assert_eq!(rt; found, None, "{count} members");
        assert_eq!(rt; occupied.count(), 0, "{count} members");
    }
    Ok(())
}

#[test]
fn the_positions_of_a_bucket_are_spread(rt: HostRuntime) -> Result<(), Fail> {
    let records = [record(0, 0), record(2, 1), record(1, 8)];
    let plan = Plan {
        seed: SEED_OF_ZERO,
        size: SIZE,
        limit: 1,
        buckets: ordered_buckets(rt.alloc(), &records, Map::Skewed, 7)?,
    };
    let mut scratch = Scratch::new(rt.alloc(), &plan)?;
    assert!(rt; 0 < plan.ranks());
    assert!(rt; spread(&plan, 0, 0, &mut scratch));
    assert_eq!(rt; scratch.positions(), [0, 1].as_slice());
    Ok(())
}

#[test]
fn hashes_of_pilots_are_kept_or_computed(rt: HostRuntime) -> Result<(), Fail> {
    let mut scratch = Scratch::with(rt.alloc(), 1)?;
    let cases: [(u64, u64, u64); 4] = [
        (7, 1, 12_982_362_733_409_533_052),
        (1, 1, 5_833_352_340_892_006_082),
        (16_777_215, 8, 16_778_396_237_004_748_789),
        (0, 0, 8_217_090_173_679_840_641),
    ];
    for (pilot, seed, hash) in cases {
        assert_eq!(rt; scratch.pilot_hash(pilot, seed), hash, "pilot {pilot}");
    }
    Ok(())
}

// A new state that has adopted so many pilots of a search.
fn adopted(
    alloc: Global,
    plan: &Plan,
    placed: &Placed,
    count: usize,
    scratch: &mut Scratch,
) -> Result<Placed, NoMemory>
    requires placed { IsPlaced plan.now placed.now }
    requires count { count ≤ length placed.now.pilots.items }
    requires room { most_members plan.now.buckets ≤ scratch.old.members }
    ensures done { IfOk result (λ state. state.done ≡ count) }
    ensures placed { IfOk result (λ state. IsPlacedSoFar plan.now state) }
    ensures room { scratch.new.members ≡ scratch.old.members }
{
    let state = Placed::new(alloc, plan)?;
    let pilots = placed.pilots.as_slice();
    Ok(adopt(plan, state, &pilots[..count], scratch))
}

#[test]
fn a_search_goes_on_from_an_adopted_pilot(rt: HostRuntime) -> Result<(), Fail> {
    let records = [record(0, 0), record(2, 1), record(1, 8)];
    let plan = Plan {
        seed: SEED_OF_ZERO,
        size: SIZE,
        limit: 1,
        buckets: ordered_buckets(rt.alloc(), &records, Map::Skewed, 7)?,
    };
    let mut scratch = Scratch::new(rt.alloc(), &plan)?;
    match place(rt.alloc(), &plan)? {
        Ok(whole) => {
            assert!(rt; 1 <= whole.pilots.len());
            let state = adopted(rt.alloc(), &plan, &whole, 1, &mut scratch)?;
            assert_eq!(rt; state.done, 1);
            assert_eq!(rt; state.occupied.count(), 2);
            assert!(rt; 1 < state.occupied.size());
            assert!(rt; state.occupied.contains(0));
            assert!(rt; state.occupied.contains(1));
            match place_from(&plan, state, &mut scratch) {
                Ok(found) => {
                    assert_eq!(rt; found.pilots, whole.pilots);
                    assert_eq!(rt; found.done, whole.done);
                    assert_eq!(rt; found.occupied.count(), whole.occupied.count());
                    for position in 0..SIZE {
                        assert!(rt; position < found.occupied.size());
                        assert!(rt; position < whole.occupied.size());
                        assert_eq!(rt;
                            found.occupied.contains(position),
                            whole.occupied.contains(position),
                            "position {position}"
                        );
                    }
                }
                Err(_) => panic!(rt; "the search from an adopted pilot is stuck"),
            }
        }
        Err(_) => panic!(rt; "the search is stuck"),
    }
    Ok(())
}
