//! Times one part of a build on random input: prints its nanoseconds and a checksum of its result.
#![tactic(auto)]

mod input;
mod parts;
mod plans;
mod searches;

use crate::parts::{Timed, time_buckets, time_murmur64, time_pairs};
use crate::searches::time_search;
use std::alloc::Global;
use std::rt::Clock;
use std::sync::Wait;
use std::thread::Threads;
use std::{env, io};

fn main(rt: HostRuntime) -> io::Result<()> {
    let mut words = env::args(&rt)?;
    let _program = words.next();
    let part = words.next();
    let count = words.next();
    match (part, count) {
        (Some(part), Some(count)) => {
            let count = count.as_str().parse::<u32>().unwrap_or(1_000_000);
            let Timed { nanos, checksum } = time(&rt, rt.alloc(), part.as_str(), count)?;
            println!(rt; "{nanos} {checksum}")
        }
        _ => println!(rt;
            "parts: murmur64, hash_pair, ordered_buckets, place, two, four, turns1, turns2, turns4, these six also as place_lean and place_tight, partitions, repeat, lists, large, among; then how many bytes, keys, records or members"
        ),
    }
}

fn time<R: Clock + Threads + Wait + Sync>(
    rt: &R,
    alloc: Global,
    part: &str,
    count: u32,
) -> io::Result<Timed> {
    match part {
        "murmur64" => time_murmur64(alloc, rt, count),
        "hash_pair" => time_pairs(alloc, rt, count),
        "ordered_buckets" => time_buckets(alloc, rt, count),
        _ => time_search(rt, alloc, part, count),
    }
}
