//! Times the build of one partition, its buckets or its lookups on random input: prints nanoseconds and a checksum of the result.
#![tactic(auto)]

mod input;
mod parts;

use crate::parts::{Timed, time_buckets, time_build, time_lookups, time_records};
use std::alloc::Global;
use std::rt::Clock;
use std::sync::Wait;
use std::thread::Threads;
use std::{env, io};

fn main(rt: HostRuntime) -> io::Result<()> {
    let mut words = env::args(&rt)?;
    let _program = words.next();
    let part = words.next();
    let count = words.next();
    match (part, count) {
        (Some(part), Some(count)) => {
            let count = count.as_str().parse::<u32>().unwrap_or(1_000_000);
            let Timed { nanos, checksum } = time(&rt, rt.alloc(), part.as_str(), count)?;
            println!(rt; "{nanos} {checksum}")
        }
        _ => println!(rt; "parts: records, buckets, build, lookup; then how many records or keys"),
    }
}

fn time<R: Clock + Threads + Wait + Sync>(
    rt: &R,
    alloc: Global,
    part: &str,
    count: u32,
) -> io::Result<Timed> {
    match part {
        "buckets" => time_buckets(rt, alloc, count),
        "build" => time_build(rt, alloc, count),
        "lookup" => time_lookups(rt, alloc, count),
        _ => time_records(alloc, count),
    }
}
