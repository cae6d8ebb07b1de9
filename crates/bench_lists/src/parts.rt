// The parts that are timed.
ghost use Rattle.std.specs.Prelude.{◌<◌};

use crate::input::{Numbers, rising};
use bit_vector::{BitVec, Selector};
use elias_fano::EliasFano;
use std::alloc::Global;
use std::io;
use std::rt::Clock;
use std::time::Instant;

// How many questions are asked.
pub(crate) const QUESTIONS: u32 = 1_000_000;

// How long a part took, and a checksum of its answers.
#[derive(Drop)]
pub(crate) struct Timed {
    pub(crate) nanos: u128,
    pub(crate) checksum: u64,
}

// The error where memory ran out, or where a list is too long for its type.
pub(crate) fn out_of_memory() -> io::Error {
    io::Error::from(io::ErrorKind::OutOfMemory)
}

// Random values of a list, dense or sparse by how far random numbers are shifted to be its steps.
pub(crate) fn time_get(
    alloc: Global,
    clock: &impl Clock,
    count: u32,
    shift: u32,
) -> io::Result<Timed>
    requires { shift < 64 }
{
    let values = rising(alloc, count, shift)?;
    if values.len() >= 1 << 36 {
        return Err(out_of_memory());
    }
    let list = match EliasFano::build(alloc, &values) {
        Ok(list) => list,
        Err(_) => return Err(out_of_memory()),
    };
    let start = Instant::now(clock)?;
    let checksum = sum_of_values(&list, count);
    let nanos = start.elapsed(clock)?.as_nanos();
    Ok(Timed { nanos, checksum })
}

// The sum of random values, modulo 2^64.
fn sum_of_values(list: &EliasFano, count: u32) -> u64 {
    let mut numbers = Numbers { state: 2 };
    let mut sum = 0u64;
    for _ in 0..QUESTIONS {
        let i = place_below(&mut numbers, count);
        sum = sum.wrapping_add(list.get(i).unwrap_or(0));
    }
    sum
}

// A random number below a bound, which is below 2^32.
pub(crate) fn place_below(numbers: &mut Numbers, bound: u32) -> u64 {
    ((numbers.next() >> 32).wrapping_mul(u64::from(bound))) >> 32
}

// Random ones of random bits, half of which are ones.
pub(crate) fn time_select(alloc: Global, clock: &impl Clock, count: u32) -> io::Result<Timed> {
    let selector = match random_bits(alloc, count) {
        Ok(bits) => match Selector::new(alloc, bits) {
            Ok(selector) => selector,
            Err(_) => return Err(out_of_memory()),
        },
        Err(_) => return Err(out_of_memory()),
    };
    let start = Instant::now(clock)?;
    let checksum = sum_of_places(&selector, count);
    let nanos = start.elapsed(clock)?.as_nanos();
    Ok(Timed { nanos, checksum })
}

// So many words of random bits, from which about 32 times as many ones come.
fn random_bits(alloc: Global, count: u32) -> Result<BitVec, bit_vector::NoMemory> {
    let mut numbers = Numbers { state: 1 };
    let mut words = Vec::new(alloc);
    let count = count / 32 + 1;
    for _ in 0..count {
        if words.push(numbers.next()).is_err() {
            return Err(bit_vector::NoMemory);
        }
    }
    let len = u64::from(count) * 64;
    match BitVec::from_words(words, len) {
        Some(bits) => Ok(bits),
        None => Err(bit_vector::NoMemory),
    }
}

// The sum of the places of random ones, modulo 2^64.
fn sum_of_places(selector: &Selector, count: u32) -> u64 {
    let mut numbers = Numbers { state: 2 };
    let mut sum = 0u64;
    for _ in 0..QUESTIONS {
        let i = place_below(&mut numbers, count);
        sum = sum.wrapping_add(selector.select1(i).unwrap_or(0));
    }
    sum
}
