// Spellings, faults and long lists.
ghost use Rattle.std.specs.Prelude.{◌≡◌};
ghost use Rattle.elias_fano.specs.Spelling.{rises};

use elias_fano::{COUNT, EliasFano, FormFault, LAST, NoMemory, PADDING, ReadErr, SHORT};
use std::alloc::Global;
use std::process::Abort;
use std::test::*;

// Whether no value is below the one before it.
fn in_order(values: &[u64]) -> bool
    ensures { result ≡ rises 0 values.now }
{
    let mut before = 0;
    for value in values {
        if *value < before {
            return false;
        }
        before = *value;
    }
    true
}

fn list_of(rt: &impl Abort, alloc: Global, values: &[u64]) -> Result<EliasFano, NoMemory> {
    assert!(rt; in_order(values));
    assert!(rt; values.len() <= 1 << 36);
    EliasFano::build(alloc, values)
}

fn bytes_of(alloc: Global, numbers: &[u64]) -> Result<Vec<u8>, NoMemory> {
    let mut bytes = Vec::new(alloc);
    for n in numbers {
        bytes.extend_from_slice(&n.to_le_bytes())?;
    }
    Ok(bytes)
}

fn read_all(
    rt: &impl Abort,
    alloc: Global,
    bytes: &[u8],
    count: u64,
) -> Result<(EliasFano, usize), ReadErr> {
    assert!(rt; count <= 1 << 36);
    EliasFano::read(alloc, bytes, 0, count)
}

// The list holds these values, is written so, and is read again.
fn check_list(rt: &impl Abort, alloc: Global, values: &[u64], bytes: &[u8]) -> Result<(), Fail> {
    let list = list_of(rt, alloc, values)?;
    assert_eq!(rt; list.len(), values.len() as u64);
    let mut out = Vec::new(alloc);
    list.write(&mut out)?;
    assert_eq!(rt; out.as_slice(), bytes);
    let (again, place) = read_all(rt, alloc, &out, list.len())?;
    assert_eq!(rt; place, bytes.len());
    for (i, value) in values.iter().enumerate() {
        assert_eq!(rt; list.get(i as u64), Some(*value));
        assert_eq!(rt; again.get(i as u64), Some(*value));
    }
    assert_eq!(rt; list.get(values.len() as u64), None);
    Ok(())
}

const MAX: u64 = u64::MAX;

#[test]
fn spellings(rt: HostRuntime) -> Result<(), Fail> {
    let none: [u64; 0] = [];
    // The values, and the numbers that spell them.
    for (values, numbers) in [
        (none.as_slice(), [0, 0].as_slice()),
        ([0].as_slice(), [0, 1].as_slice()),
        ([7].as_slice(), [7, 3, 2].as_slice()),
        ([MAX].as_slice(), [MAX, 9223372036854775807, 2].as_slice()),
        ([0, 0].as_slice(), [0, 3].as_slice()),
        ([5, 5, 5, 5].as_slice(), [5, 480].as_slice()),
        (
            [2, 3, 5, 7, 11, 13, 24].as_slice(),
            [24, 62, 264790].as_slice(),
        ),
        ([0, 1 << 63].as_slice(), [1 << 63, 0, 0, 9].as_slice()),
        (
            [MAX - 1, MAX].as_slice(),
            [MAX, MAX - 1, 1152921504606846975, 24].as_slice(),
        ),
        (
            [0, 1, 2, 3, 4, 5, 6, 7, 8, 9].as_slice(),
            [9, 349525].as_slice(),
        ),
        (
            [0, 1000, 2000, 3000, 4000, 5000, 6000, 7000, 8000].as_slice(),
            [8000, 6643119571828199424, 82092, 9586981].as_slice(),
        ),
        ([0; 70].as_slice(), [0, MAX, 63].as_slice()),
    ] {
        let bytes = bytes_of(rt.alloc(), numbers)?;
        check_list(&rt, rt.alloc(), values, &bytes)?;
    }
    Ok(())
}

#[test]
fn faults(rt: HostRuntime) -> Result<(), Fail> {
    // The count, the numbers, the place and the kind of the fault.
    for (count, numbers, at, kind) in [
        (0, [1, 0].as_slice(), 0, LAST),
        (0, [0].as_slice(), 8, SHORT),
        (0, [0, 1].as_slice(), 8, COUNT),
        (0, [0, 2].as_slice(), 8, PADDING),
        (1, [0, 0].as_slice(), 8, COUNT),
        (1, [0].as_slice(), 8, SHORT),
        (7, [25, 62, 264790].as_slice(), 0, LAST),
        (7, [24, 190, 264790].as_slice(), 8, PADDING),
        (7, [24, 62, 1313366].as_slice(), 16, PADDING),
        (7, [24, 62, 264786].as_slice(), 16, COUNT),
        (2, [3, 0, 9].as_slice(), 8, COUNT),
        (2, [2, 0, 6].as_slice(), 8, COUNT),
        (3, [7, 7, 13].as_slice(), 0, LAST),
        (2, [MAX, 5, 0, 33].as_slice(), 0, LAST),
        (2, [MAX, 5, 0, 9].as_slice(), 0, LAST),
        (2, [MAX].as_slice(), 8, SHORT),
        (67_108_864, [5, 1].as_slice(), 8, SHORT),
    ] {
        let bytes = bytes_of(rt.alloc(), numbers)?;
        match read_all(&rt, rt.alloc(), &bytes, count) {
            Ok(_) => return Err("there is a fault".into()),
            Err(e) => assert_eq!(rt; e, ReadErr::Form(FormFault { at, kind })),
        }
    }
    Ok(())
}

#[test]
fn what_is_read(rt: HostRuntime) -> Result<(), Fail> {
    // Other low bits, and a number behind.
    let bytes = bytes_of(rt.alloc(), &[24, 63, 264790, 99])?;
    let (list, place) = read_all(&rt, rt.alloc(), &bytes, 7)?;
    assert_eq!(rt; place, 24);
    assert_eq!(rt; list.get(0), Some(3));
    assert_eq!(rt; list.get(1), Some(3));
    assert_eq!(rt; list.get(6), Some(24));
    let (none, place) = read_all(&rt, rt.alloc(), &[0; 16], 0)?;
    assert_eq!(rt; none.len(), 0);
    assert_eq!(rt; place, 16);
    Ok(())
}

// How many values at the front are below a bound, by a look at each.
fn below_by_each(list: &EliasFano, bound: u64) -> u64 {
    for i in 0..list.len() {
        if list.get(i).unwrap_or(0) >= bound {
            return i;
        }
    }
    list.len()
}

#[test]
fn pairs_and_bounds(rt: HostRuntime) -> Result<(), Fail> {
    let none: [u64; 0] = [];
    let primes = [2, 3, 5, 7, 11, 13, 24];
    // The values, a bound, and how many at the front are below it.
    for (values, bound, below) in [
        (none.as_slice(), 0, 0),
        ([5, 5, 5, 5].as_slice(), 5, 0),
        ([5, 5, 5, 5].as_slice(), 6, 4),
        (primes.as_slice(), 2, 0),
        (primes.as_slice(), 3, 1),
        (primes.as_slice(), 12, 5),
        (primes.as_slice(), 24, 6),
        (primes.as_slice(), 25, 7),
        ([0, 1 << 63].as_slice(), 1 << 63, 1),
        ([MAX - 1, MAX].as_slice(), MAX, 1),
    ] {
        let list = list_of(&rt, rt.alloc(), values)?;
        assert_eq!(rt; list.below(bound), below, "{bound}");
        assert_eq!(rt; below_by_each(&list, bound), below, "{bound}");
        for i in 1..list.len() {
            let (value, next) = list.pair(i - 1);
            assert_eq!(rt; Some(value), list.get(i - 1), "{i}");
            assert_eq!(rt; Some(next), list.get(i), "{i}");
        }
    }
    Ok(())
}

#[test]
fn long_lists(rt: HostRuntime) -> Result<(), Fail> {
    // How many values, and the step from one to the next.
    for (count, step) in [(100_000, 0), (100_000, 1), (50_000, 7), (20_000, 1 << 40)] {
        let mut values = Vec::new(rt.alloc());
        for i in 0..count {
            values.push(i * step)?;
        }
        let list = list_of(&rt, rt.alloc(), &values)?;
        let mut out = Vec::new(rt.alloc());
        list.write(&mut out)?;
        let (again, place) = read_all(&rt, rt.alloc(), &out, count)?;
        assert_eq!(rt; place, out.len());
        for (i, value) in values.iter().enumerate() {
            assert_eq!(rt; list.get(i as u64), Some(*value));
            assert_eq!(rt; again.get(i as u64), Some(*value));
        }
    }
    Ok(())
}
