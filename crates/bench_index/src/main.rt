//! Times an index file for bench/index.sh alone: prints nanoseconds and a checksum, or bytes of memory and of the file.
#![tactic(auto)]

mod input;

use crate::input::{Numbers, built_of, key_of, out_of_memory, place_below};
use index_file::{Code, Encoding, Index, read_index, write_index};
use std::rt::{Clock, Files};
use std::sync::Wait;
use std::thread::Threads;
use std::time::Instant;
use std::{env, fs, io};

// How many keys are looked up.
const QUESTIONS: u32 = 2_000_000;

// The bytes of a page.
const PAGE: u64 = 4_096;

// The index that is asked for.
#[derive(Drop)]
struct Asked {
    count: u32,
    parts: u32,
    enc: Encoding,
}

#[derive(Drop)]
struct Timed {
    nanos: u128,
    checksum: u64,
}

fn main(rt: HostRuntime) -> io::Result<()> {
    let mut words = env::args(&rt)?;
    let _program = words.next();
    match (words.next(), words.next(), words.next(), words.next()) {
        (Some(part), Some(file), Some(count), Some(enc)) => {
            let parts = match words.next() {
                Some(parts) => parts.as_str().parse::<u32>().unwrap_or(1),
                None => 1,
            };
            let asked = Asked {
                count: count.as_str().parse::<u32>().unwrap_or(10_000),
                parts,
                enc: encoding_of(enc.as_str()),
            };
            let Timed { nanos, checksum } = match part.as_str() {
                "write" => time_write(&rt, file.as_str(), &asked)?,
                part => time(&rt, part, file.as_str(), asked.count)?,
            };
            println!(rt; "{nanos} {checksum}")
        }
        _ => println!(rt;
            "write, read, lookup or memory; a file; how many keys; c, pc, d-d or ef; how many partitions"
        ),
    }
}

// Other names are that of two dictionaries: what is timed is seen in the length of the file.
fn encoding_of(name: &str) -> Encoding {
    match name {
        "c" => whole(Code::Compact),
        "pc" => whole(Code::Parted),
        "ef" => whole(Code::EliasFano),
        _ => Encoding {
            front: Code::Dict,
            back: Some(Code::Dict),
        },
    }
}

fn whole(code: Code) -> Encoding {
    Encoding {
        front: code,
        back: None,
    }
}

fn time(rt: &HostRuntime, part: &str, file: &str, count: u32) -> io::Result<Timed> {
    match part {
        "lookup" => time_lookup(rt, file, count),
        "memory" => memory(rt, file),
        _ => time_read(rt, file),
    }
}

// How long it takes to write the index of some keys in memory; the file gets what was written.
fn time_write<R: AllocGlobal + Clock + Files + Threads + Wait + Sync>(
    rt: &R,
    file: &str,
    asked: &Asked,
) -> io::Result<Timed> {
    let built = built_of(rt, asked.count, asked.parts)?;
    let mut out = Vec::new(rt.alloc());
    let start = Instant::now(rt)?;
    if write_index(&built, asked.enc, &mut out).is_err() {
        return Err(out_of_memory());
    }
    let nanos = start.elapsed(rt)?.as_nanos();
    fs::write(rt, file, out.as_slice())?;
    Ok(Timed {
        nanos,
        checksum: out.len() as u64,
    })
}

// The index that the bytes of a file are.
fn index_of(rt: &HostRuntime, bytes: &[u8]) -> io::Result<Index> {
    match read_index(rt.alloc(), bytes) {
        Ok(index) => Ok(index),
        Err(_) => Err(io::Error::from(io::ErrorKind::InvalidData)),
    }
}

// How long it takes to read the index from the bytes of its file.
fn time_read(rt: &HostRuntime, file: &str) -> io::Result<Timed> {
    let bytes = fs::read(rt, file)?;
    let start = Instant::now(rt)?;
    let index = index_of(rt, &bytes)?;
    let nanos = start.elapsed(rt)?.as_nanos();
    Ok(Timed {
        nanos,
        checksum: index.head().free,
    })
}

// How long it takes to look random keys up.
fn time_lookup(rt: &HostRuntime, file: &str, count: u32) -> io::Result<Timed> {
    let bytes = fs::read(rt, file)?;
    let index = index_of(rt, &bytes)?;
    let start = Instant::now(rt)?;
    let checksum = sum_of_values(&index, count);
    let nanos = start.elapsed(rt)?.as_nanos();
    Ok(Timed { nanos, checksum })
}

fn sum_of_values(index: &Index, count: u32) -> u64 {
    let mut numbers = Numbers { state: 2 };
    let mut checksum = 0u64;
    for _ in 0..QUESTIONS {
        let key = key_of(place_below(&mut numbers, count));
        checksum = checksum.wrapping_add(index.lookup(&key).unwrap_or(0));
    }
    checksum
}

// The bytes that an index takes that was read, and those of its file.
fn memory(rt: &HostRuntime, file: &str) -> io::Result<Timed> {
    let before = resident(rt)?;
    let index = {
        let bytes = fs::read(rt, file)?;
        index_of(rt, &bytes)?
    };
    let after = resident(rt)?;
    Ok(Timed {
        nanos: u128::from(after.saturating_sub(before)),
        checksum: index.head().bytes,
    })
}

// The bytes of memory that this program takes.
fn resident(rt: &HostRuntime) -> io::Result<u64> {
    let text = fs::read_to_string(rt, "/proc/self/statm")?;
    let mut words = text.as_str().split(' ');
    let _size = words.next();
    let pages = words.next().unwrap_or("0").parse::<u64>().unwrap_or(0);
    Ok(pages.saturating_mul(PAGE))
}
