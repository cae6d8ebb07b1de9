//! Times a pool of records for bench/pool.sh alone: prints nanoseconds and a checksum.
#![tactic(auto)]

ghost use Rattle.std.specs.Prelude.{◌≡◌, ◌<◌, length};

use block_pool::{NoMemory, Pool, Push, Record};
use std::alloc::Global;
use std::rt::Clock;
use std::time::Instant;
use std::{env, io};

// How many blocks and chains the pool has.
const BLOCKS: u32 = 4_096;

const CHAINS: u32 = 64;

#[derive(Drop)]
struct Timed {
    nanos: u128,
    checksum: u64,
}

fn main(rt: HostRuntime) -> io::Result<()> {
    let mut words = env::args(&rt)?;
    let _program = words.next();
    match words.next() {
        Some(count) => {
            let count = count.as_str().parse::<u64>().unwrap_or(10_000);
            let Timed { nanos, checksum } = time(rt.alloc(), &rt, count)?;
            println!(rt; "{nanos} {checksum}")
        }
        None => println!(rt; "how many records"),
    }
}

// How long it takes to push so many records and to drain the longest chain where there is no room.
fn time(alloc: Global, clock: &impl Clock, count: u64) -> io::Result<Timed> {
    let mut pool = match Pool::new(alloc, BLOCKS, CHAINS) {
        Ok(pool) => pool,
        Err(NoMemory) => return Err(io::Error::from(io::ErrorKind::OutOfMemory)),
    };
    let start = Instant::now(clock)?;
    let mut checksum = push_all(&mut pool, count);
    for chain in 0..CHAINS {
        checksum = drain(&mut pool, chain, checksum);
    }
    let nanos = start.elapsed(clock)?.as_nanos();
    Ok(Timed { nanos, checksum })
}

// Pushes records to random chains, and drains a block of the longest chain where there is no room.
fn push_all(pool: &mut Pool, count: u64) -> u64
    requires { length pool.old.chains ≡ CHAINS }
    ensures { length pool.new.chains ≡ CHAINS }
{
    let mut checksum = 0u64;
    let mut state = 1u64;
    for ordinal in 0..count {
        state = state
            .wrapping_mul(6_364_136_223_846_793_005)
            .wrapping_add(1_442_695_040_888_963_407);
        let item = Record {
            a: state,
            b: state >> 1,
            ordinal,
        };
        let chain = (state >> 58) as u32;
        if let Push::Full(item) = pool.push(chain, item) {
            let longest = pool.longest();
            checksum = sum_of(pool.front(longest), checksum);
            pool.drop_front(longest);
            let _ = pool.push(chain, item);
        }
    }
    checksum
}

// Takes out all records of a chain.
fn drain(pool: &mut Pool, chain: u32, checksum: u64) -> u64
    requires { chain < length pool.old.chains }
    ensures { length pool.new.chains ≡ length pool.old.chains }
{
    let mut checksum = checksum;
    for _ in 0..BLOCKS {
        checksum = sum_of(pool.front(chain), checksum);
        pool.drop_front(chain);
    }
    checksum
}

fn sum_of(records: &[Record], checksum: u64) -> u64 {
    let mut checksum = checksum;
    for record in records {
        checksum = checksum
            .wrapping_mul(31)
            .wrapping_add(record.a ^ record.ordinal);
    }
    checksum
}
