// Lists of small numbers under one code, timed.
ghost use Rattle.std.specs.Prelude.{◌<◌, ◌^◌, ◌≤◌, ℕ, slice_index, IsTrue};

use crate::input::Numbers;
use crate::parts::{QUESTIONS, Timed, out_of_memory, place_below};
use pilot_codecs::{Code, Encoding, Pilots};
use std::alloc::{AllocError, Global};
use std::io;
use std::rt::Clock;
use std::time::Instant;

// How long a part takes: making the list, reading its spelling, or random values of it.
pub(crate) fn time_code(
    alloc: Global,
    clock: &impl Clock,
    part: &str,
    count: u32,
    code: Code,
) -> io::Result<Timed> {
    let values = small_numbers(alloc, count)?;
    if values.len() > 1 << 30 || !are_small(&values) {
        return Err(out_of_memory());
    }
    let enc = Encoding {
        front: code,
        back: None,
    };
    let start = Instant::now(clock)?;
    let list = match Pilots::encode(alloc, &values, enc) {
        Ok(list) => list,
        Err(_) => return Err(out_of_memory()),
    };
    let nanos = start.elapsed(clock)?.as_nanos();
    match part {
        "get" => time_values(clock, &list, count),
        "read" => time_read(alloc, clock, &text_of(alloc, &list)?, list.len(), enc),
        _ => Ok(Timed {
            nanos,
            checksum: text_of(alloc, &list)?.len() as u64,
        }),
    }
}

// The spelling of a list.
fn text_of(alloc: Global, list: &Pilots) -> io::Result<Vec<u8>> {
    let mut text = Vec::new(alloc);
    match list.write(&mut text) {
        Ok(()) => Ok(text),
        Err(_) => Err(out_of_memory()),
    }
}

// Random values of a list.
fn time_values(clock: &impl Clock, list: &Pilots, count: u32) -> io::Result<Timed> {
    let start = Instant::now(clock)?;
    let mut numbers = Numbers { state: 2 };
    let mut checksum = 0u64;
    for _ in 0..QUESTIONS {
        let i = place_below(&mut numbers, count);
        checksum = checksum.wrapping_add(list.get(i).unwrap_or(0));
    }
    let nanos = start.elapsed(clock)?.as_nanos();
    Ok(Timed { nanos, checksum })
}

// The reading of a list from its spelling.
fn time_read(
    alloc: Global,
    clock: &impl Clock,
    text: &[u8],
    count: u64,
    enc: Encoding,
) -> io::Result<Timed>
    requires { count ≤ 2 ^ 30 }
{
    let start = Instant::now(clock)?;
    let read = Pilots::read(alloc, text, 0, count, enc);
    let nanos = start.elapsed(clock)?.as_nanos();
    match read {
        Ok((list, _)) => Ok(Timed {
            nanos,
            checksum: list.get(count / 2).unwrap_or(0),
        }),
        Err(_) => Err(out_of_memory()),
    }
}

// Random numbers that are geometric in steps of 16; about one in a thousand is 256 times as large.
fn small_numbers(alloc: Global, count: u32) -> Result<Vec<u64>, AllocError> {
    let mut numbers = Numbers { state: 3 };
    let mut values = Vec::new(alloc);
    for _ in 0..count {
        let random = numbers.next();
        let step = u64::from(random.trailing_zeros());
        let value = step.wrapping_mul(16).wrapping_add(random >> 60);
        let rare = (random >> 40) & 1023 == 0;
        values.push(if rare { value.wrapping_mul(256) } else { value })?;
    }
    Ok(values)
}

// Whether each value has at most 32 digits.
fn are_small(values: &[u64]) -> bool
    ensures { IsTrue result → ((i : ℕ) → slice_index values.now i < 2 ^ 32) }
{
    for value in values {
        if *value >= 1 << 32 {
            return false;
        }
    }
    true
}
