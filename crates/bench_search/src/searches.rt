// The searches that are timed.

ghost use Rattle.std.specs.Prelude.{◌≡◌, ◌≤◌, IfOk};
ghost use Rattle.pthash.specs.declared.TheConstants.{MAX_POSITIONS};

use crate::input::{members, records, records_of_one_bucket, records_with_a_repeat};
use crate::parts::{Timed, invalid_input, out_of_memory};
use crate::plans::{PILOTS, SEED, plan_of, plans_of_partitions, shape_of, usual};
use bucket_map::{MAX_KEYS, MAX_PILOTS, NoMemory, Record, Shape};
use pilot_search::{Occupancy, Placed, Plan, Scratch, Stuck, place, place_one, place_rounds};
use std::alloc::Global;
use std::io;
use std::rt::Clock;
use std::sync::Wait;
use std::thread::Threads;
use std::time::Instant;
use turn_search::{FreeGate, search_turns};

// So many small lists are searched one after another.
const LISTS: u32 = 1000;

// The table in which one large bucket is tried, and how many pilots are.
const LARGE_SIZE: u64 = 102_041;

const LARGE_PILOTS: u64 = 100_000;

// So many records there are where many are of one bucket, and so many pilots may be tried.
const AMONG: u32 = 1_000_000;

const AMONG_PILOTS: u64 = 10_000;

// How long a search takes that a name stands for, with its input beside.
pub(crate) fn time_search<R: Clock + Threads + Wait + Sync>(
    rt: &R,
    alloc: Global,
    part: &str,
    count: u32,
) -> io::Result<Timed> {
    match part {
        "partitions" => time_partitions(rt, alloc, &records(alloc, count)?),
        "repeat" => {
            let records = records_with_a_repeat(alloc, count)?;
            time_place(rt, alloc, &records, usual(), PILOTS)
        }
        "lists" => time_lists(rt, alloc, &records(alloc, count.saturating_mul(LISTS))?),
        "large" => time_large(rt, alloc, &members(alloc, count)?),
        "among" => {
            let records = records_of_one_bucket(alloc, count, AMONG)?;
            time_place(rt, alloc, &records, usual(), AMONG_PILOTS)
        }
        _ => time_whole(rt, alloc, part, &records(alloc, count)?),
    }
}

// The whole search of one plan: alone, in rounds or by turns.
fn time_whole<R: Clock + Threads + Wait + Sync>(
    rt: &R,
    alloc: Global,
    part: &str,
    records: &[Record],
) -> io::Result<Timed> {
    let (search, shape) = match part.split_once('_') {
        Some((search, shape)) => (search, shape_of(shape)),
        None => (part, usual()),
    };
    match search {
        "place" => time_place(rt, alloc, records, shape, PILOTS),
        "two" => time_rounds(rt, alloc, records, shape, 2),
        "four" => time_rounds(rt, alloc, records, shape, 4),
        "turns1" => time_turns(rt, alloc, records, shape, 1),
        "turns2" => time_turns(rt, alloc, records, shape, 2),
        "turns4" => time_turns(rt, alloc, records, shape, 4),
        _ => Err(invalid_input()),
    }
}

// The sum of the pilots, or the rank of the bucket that has none.
fn sum_of(answer: &Result<Placed, Stuck>) -> u64 {
    match answer {
        Ok(placed) => {
            let mut sum = 0u64;
            for pilot in placed.pilots.as_slice() {
                sum = sum.wrapping_mul(31).wrapping_add(*pilot);
            }
            sum
        }
        Err(stuck) => stuck.rank,
    }
}

// By one worker.
fn time_place(
    clock: &impl Clock,
    alloc: Global,
    records: &[Record],
    shape: Shape,
    limit: u64,
) -> io::Result<Timed>
    requires some { 1 ≤ limit }
    requires bound { limit ≤ MAX_PILOTS }
{
    let plan = plan_of(alloc, records, shape, limit)?;
    let start = Instant::now(clock)?;
    let answer = place(alloc, &plan);
    let nanos = start.elapsed(clock)?.as_nanos();
    match answer {
        Ok(answer) => Ok(Timed {
            nanos,
            checksum: sum_of(&answer),
        }),
        Err(_) => Err(out_of_memory()),
    }
}

// In rounds of so many workers.
fn time_rounds<R: Clock + Threads + Sync>(
    rt: &R,
    alloc: Global,
    records: &[Record],
    shape: Shape,
    workers: u32,
) -> io::Result<Timed>
    requires some { 1 ≤ workers }
    requires bound { workers ≤ 64 }
{
    let plan = plan_of(alloc, records, shape, PILOTS)?;
    let start = Instant::now(rt)?;
    let answer = place_rounds(rt, alloc, &plan, workers);
    let nanos = start.elapsed(rt)?.as_nanos();
    match answer {
        Ok(answer) => Ok(Timed {
            nanos,
            checksum: sum_of(&answer),
        }),
        Err(_) => Err(out_of_memory()),
    }
}

// By turns of so many workers, one too, who goes through the table.
fn time_turns<R: Clock + Threads + Wait + Sync>(
    rt: &R,
    alloc: Global,
    records: &[Record],
    shape: Shape,
    workers: u32,
) -> io::Result<Timed>
    requires some { 1 ≤ workers }
    requires bound { workers ≤ 64 }
{
    let plan = plan_of(alloc, records, shape, PILOTS)?;
    let start = Instant::now(rt)?;
    let answer = search_turns(rt, alloc, &plan, workers, &FreeGate);
    let nanos = start.elapsed(rt)?.as_nanos();
    match answer {
        Ok(answer) => Ok(Timed {
            nanos,
            checksum: sum_of(&answer),
        }),
        Err(_) => Err(out_of_memory()),
    }
}

// One partition after another.
fn time_partitions(clock: &impl Clock, alloc: Global, records: &[Record]) -> io::Result<Timed> {
    let plans = plans_of_partitions(alloc, records)?;
    time_plans(clock, alloc, &plans)
}

// One small list after another, each of other records, so that no branch is known from the list before.
fn time_lists(clock: &impl Clock, alloc: Global, records: &[Record]) -> io::Result<Timed> {
    let len = records.len() / LISTS as usize;
    if len == 0 {
        return Err(invalid_input());
    }
    let mut plans = Vec::new(alloc);
    for list in records.chunks(len) {
        plans.push(plan_of(alloc, list, usual(), PILOTS)?)?;
    }
    time_plans(clock, alloc, &plans)
}

// One plan after another.
fn time_plans(clock: &impl Clock, alloc: Global, plans: &[Plan]) -> io::Result<Timed> {
    let start = Instant::now(clock)?;
    let checksum = place_all(alloc, plans)?;
    let nanos = start.elapsed(clock)?.as_nanos();
    Ok(Timed { nanos, checksum })
}

// A checksum of the searches of all plans.
fn place_all(alloc: Global, plans: &[Plan]) -> io::Result<u64> {
    let mut sum = 0;
    for plan in plans {
        match place(alloc, plan) {
            Ok(answer) => sum ^= sum_of(&answer),
            Err(_) => return Err(out_of_memory()),
        }
    }
    Ok(sum)
}

// One bucket of these members in an empty table, whose pilots all fail where it is large.
fn time_large(clock: &impl Clock, alloc: Global, members: &[u64]) -> io::Result<Timed> {
    let count = members.len() as u64;
    if count == 0 || count > MAX_KEYS {
        return Err(invalid_input());
    }
    let (mut occupied, mut scratch) = match room_for(alloc, count) {
        Ok(room) => room,
        Err(_) => return Err(out_of_memory()),
    };
    let start = Instant::now(clock)?;
    let found = place_one(SEED, LARGE_PILOTS, members, &mut occupied, &mut scratch);
    let nanos = start.elapsed(clock)?.as_nanos();
    Ok(Timed {
        nanos,
        checksum: found.unwrap_or(0),
    })
}

// An empty table and room for one bucket of so many members.
fn room_for(alloc: Global, members: u64) -> Result<(Occupancy, Scratch), NoMemory>
    requires { members ≤ MAX_POSITIONS }
    ensures size { IfOk result (λ room. room.0.size ≡ LARGE_SIZE) }
    ensures room { IfOk result (λ room. room.1.members ≡ members) }
{
    let occupied = Occupancy::new(alloc, LARGE_SIZE)?;
    let scratch = Scratch::with(alloc, members)?;
    Ok((occupied, scratch))
}
