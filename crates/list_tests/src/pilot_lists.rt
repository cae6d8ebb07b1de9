// What the tests share: lists made, written and read again.
ghost use Rattle.std.specs.Prelude.{◌<◌, ◌^◌, ℕ, slice_index, IsTrue};

use pilot_codecs::Code::{Compact, Dict, EliasFano, Parted};
use pilot_codecs::{Code, Encoding, NoMemory, Pilots, ReadErr};
use std::alloc::Global;
use std::process::Abort;
use std::test::*;

mod bounds;
mod encodings;
mod faults;
mod spellings;

const NONE: [u64; 0] = [];

const MAX: u64 = u64::MAX;

const CODES: [Code; 4] = [Compact, Parted, Dict, EliasFano];

// Whether each value has at most 32 digits.
fn are_small(values: &[u64]) -> bool
    ensures { IsTrue result → ((i : ℕ) → slice_index values.now i < 2 ^ 32) }
{
    for value in values {
        if *value >= 1 << 32 {
            return false;
        }
    }
    true
}

fn pilots_of(
    rt: &impl Abort,
    alloc: Global,
    values: &[u64],
    enc: Encoding,
) -> Result<Pilots, NoMemory> {
    assert!(rt; are_small(values));
    assert!(rt; values.len() <= 1 << 30);
    Pilots::encode(alloc, values, enc)
}

fn bytes_of(alloc: Global, numbers: &[u64]) -> Result<Vec<u8>, NoMemory> {
    let mut bytes = Vec::new(alloc);
    for n in numbers {
        bytes.extend_from_slice(&n.to_le_bytes())?;
    }
    Ok(bytes)
}

fn read_all(
    rt: &impl Abort,
    alloc: Global,
    bytes: &[u8],
    count: u64,
    enc: Encoding,
) -> Result<(Pilots, usize), ReadErr> {
    assert!(rt; count <= 1 << 30);
    Pilots::read(alloc, bytes, 0, count, enc)
}

fn check_values(rt: &impl Abort, list: &Pilots, values: &[u64]) {
    assert_eq!(rt; list.len(), values.len() as u64);
    for (i, value) in values.iter().enumerate() {
        assert_eq!(rt; list.get(i as u64), Some(*value));
    }
    assert_eq!(rt; list.get(values.len() as u64), None);
}

// The list holds these values, and is read again from what it writes.
fn check_list(
    rt: &impl Abort,
    alloc: Global,
    values: &[u64],
    enc: Encoding,
) -> Result<Vec<u8>, Fail> {
    let list = pilots_of(rt, alloc, values, enc)?;
    let mut out = Vec::new(alloc);
    list.write(&mut out)?;
    let (again, place) = read_all(rt, alloc, &out, list.len(), enc)?;
    assert_eq!(rt; place, out.len());
    check_values(rt, &list, values);
    check_values(rt, &again, values);
    Ok(out)
}

// The list is written as these numbers.
fn check_text(
    rt: &impl Abort,
    alloc: Global,
    values: &[u64],
    enc: Encoding,
    numbers: &[u64],
) -> Result<(), Fail> {
    let out = check_list(rt, alloc, values, enc)?;
    let bytes = bytes_of(alloc, numbers)?;
    assert_eq!(rt; out.as_slice(), bytes.as_slice(), "{enc:?}");
    Ok(())
}
