// Bits, places and counts on small and large inputs.
ghost use Rattle.std.specs.Prelude.{◌<◌};

use bit_vector::{BitVec, NoMemory, Selector};
use std::alloc::Global;
use std::process::Abort;
use std::test::*;

// Bits of which every so many is set, the first one too.
fn every(rt: &impl Abort, alloc: Global, len: u64, step: u64) -> Result<BitVec, NoMemory>
    requires { 0 < step }
{
    let mut bits = BitVec::new(alloc);
    for at in 0..len {
        assert!(rt; bits.len() < 1 << 20);
        bits.push_bits(if at % step == 0 { 1 } else { 0 }, 1)?;
    }
    Ok(bits)
}

#[test]
fn a_few_bits(rt: HostRuntime) -> Result<(), Fail> {
    let mut bits = BitVec::new(rt.alloc());
    bits.push_bits(5, 3)?;
    assert!(rt; bits.len() < 100);
    bits.push_bits(0, 61)?;
    assert!(rt; bits.len() < 100);
    bits.push_bits(3, 2)?;
    assert_eq!(rt; bits.len(), 66);
    assert_eq!(rt; bits.words(), [5, 3].as_slice());
    assert_eq!(rt; bits.get_bits(62, 4), 12);
    assert!(rt; bits.get(64));

    // The same bits, set one by one.
    let mut set = BitVec::zeros(rt.alloc(), 66)?;
    for at in [65, 0, 64, 2, 0] {
        assert!(rt; at < set.len());
        set.set(at);
    }
    assert_eq!(rt; set.words(), bits.words());

    let selector = Selector::new(rt.alloc(), bits)?;
    assert_eq!(rt; selector.select1(2), Some(64));
    assert_eq!(rt; selector.select1(4), None);
    assert!(rt; 65 <= selector.bits().len());
    assert_eq!(rt; selector.rank1(65), 3);
    Ok(())
}

#[test]
fn values_of_one_width(rt: HostRuntime) -> Result<(), Fail> {
    // The width, and the words that the values 5, 0 and 3 take.
    for (width, words) in [
        (0, [].as_slice()),
        (1, [5].as_slice()),
        (3, [197].as_slice()),
        (32, [5, 3].as_slice()),
        (63, [5, 3 << 62, 0].as_slice()),
        (64, [5, 0, 3].as_slice()),
    ] {
        assert!(rt; width <= 64);
        let bits = BitVec::from_fields(rt.alloc(), &[5, 0, 3], width)?;
        assert_eq!(rt; bits.words(), words, "{width}");
    }
    Ok(())
}

#[test]
fn many_bits(rt: HostRuntime) -> Result<(), Fail> {
    // Length, and every so many a one.
    for (len, step) in [(100_000, 1), (100_000, 3), (70_016, 64), (200_000, 997)] {
        if step == 0 {
            return Err("a step is above 0".into());
        }
        let selector = Selector::new(rt.alloc(), every(&rt, rt.alloc(), len, step)?)?;
        for at in 0..len {
            assert!(rt; at <= selector.bits().len());
            assert_eq!(rt; selector.rank1(at), at.div_ceil(step), "{len} {step} {at}");
        }
        for i in 0..len.div_ceil(step) {
            assert_eq!(rt; selector.select1(i), Some(i * step), "{len} {step} {i}");
        }
        assert_eq!(rt; selector.select1(len.div_ceil(step)), None);
    }
    Ok(())
}

#[test]
fn the_next_one(rt: HostRuntime) -> Result<(), Fail> {
    // Length, and every so many a one: the next one by a walk, and by a count and a select.
    for (len, step) in [(1, 1), (64, 64), (130, 65), (1_000, 63), (2_000, 997)] {
        if step == 0 {
            return Err("a step is above 0".into());
        }
        let selector = Selector::new(rt.alloc(), every(&rt, rt.alloc(), len, step)?)?;
        for from in 0..len {
            assert!(rt; from <= selector.bits().len());
            let next = from.div_ceil(step).saturating_mul(step);
            let found = if next < len { Some(next) } else { None };
            assert_eq!(rt; selector.next1(from), found, "{len} {step} {from}");
            let counted = selector.select1(selector.rank1(from));
            assert_eq!(rt; counted, found, "{len} {step} {from}");
        }
    }
    Ok(())
}

#[test]
fn words_are_taken_if_they_fit(rt: HostRuntime) -> Result<(), Fail> {
    // How many words, the last one, the length, and whether they are taken.
    for (count, last, len, taken) in [
        (0, 0, 0, true),
        (1, 0, 0, false),
        (1, 1, 1, true),
        (1, 2, 1, false),
        (1, u64::MAX, 64, true),
        (2, 1, 64, false),
        (2, 3, 66, true),
        (2, 4, 66, false),
        (1, 3, 66, false),
    ] {
        let mut words = Vec::new(rt.alloc());
        for at in 0..count {
            words.push(if at == count - 1 { last } else { 5 })?;
        }
        assert!(rt; len <= 66);
        assert_eq!(rt;
            BitVec::from_words(words, len).is_some(),
            taken,
            "{count} {last} {len}"
        );
    }
    Ok(())
}

#[test]
fn widths(rt: HostRuntime) -> Result<(), Fail> {
    for (width, value) in [(0, 0), (1, 1), (63, (1 << 63) - 1), (64, u64::MAX - 2)] {
        let mut bits = BitVec::new(rt.alloc());
        bits.push_bits(1, 1)?;
        assert!(rt; width <= 64);
        assert!(rt; width == 64 || value < 1 << width);
        assert!(rt; bits.len() < 100);
        bits.push_bits(value, width)?;
        assert!(rt; 1 + u64::from(width) <= bits.len());
        assert_eq!(rt; bits.get_bits(1, width), value, "{width}");
    }
    Ok(())
}
