// The values of keys of an index and of others, beside those of an independent program.
use super::*;

// The values of k0 to k7.
#[test]
fn keys_have_their_values(rt: HostRuntime) -> Result<(), Fail> {
    for (count, parts, shape, searches, values) in [
        (5, 1, SKEWED, SEARCHES.as_slice(), [1, 4, 2, 3, 0, 0, 3, 0]),
        (21, 4, SKEWED, &SEARCHES, [0, 12, 10, 15, 7, 16, 5, 3]),
        (
            400,
            3,
            SKEWED,
            &SEARCHES,
            [89, 150, 251, 334, 124, 170, 75, 20],
        ),
        (
            400,
            3,
            UNIFORM,
            &SEARCHES,
            [97, 150, 198, 315, 124, 170, 45, 79],
        ),
        (
            20_000,
            1,
            SKEWED,
            &SEARCHES,
            [7333, 19_915, 1505, 12_866, 16_462, 18_707, 12_218, 9518],
        ),
        (
            20_000,
            16,
            SKEWED,
            &SEARCHES,
            [4603, 9988, 9329, 14_770, 2404, 12_419, 3812, 3865],
        ),
    ] {
        let keys = numbered(&rt, count)?;
        let eight = numbered(&rt, 8)?;
        for &how in searches {
            match built(&rt, &keys, &[1], shape, parts, 16_777_216, how)? {
                Ok(index) => {
                    for (place, value) in values.iter().enumerate() {
                        assert!(rt; (place as u64) < eight.len());
                        let found = index.lookup(eight.key(place as u64));
                        assert_eq!(rt; found, Some(*value), "k{place} of {count} by {how:?}");
                    }
                }
                Err(_) => panic!(rt; "{count} keys by {how:?}"),
            }
        }
    }
    Ok(())
}

// Numbers as keys: the hash of each below a count, as 16 digits.
fn hashed<R: Abort + AllocGlobal>(rt: &R, count: u64, seed: u64) -> Result<KeyList, Fail> {
    let mut keys = KeyList::new(rt.alloc());
    for number in 0..count {
        let mut key = String::new(rt.alloc());
        let hash = murmur64(&number.to_le_bytes(), seed);
        write!(key, "{hash:016x}")?;
        assert!(rt; key.len() <= 65_535);
        keys.push(key.as_bytes())?;
    }
    Ok(keys)
}

// The values of keys that are not in the list, and of those of another list.
#[test]
fn other_keys_have_values(rt: HostRuntime) -> Result<(), Fail> {
    let six = hashed(&rt, 6, 3)?;
    let forty = hashed(&rt, 40, 3)?;
    for (keys, parts, shape, seed, values) in [
        (
            &numbered(&rt, 5)?,
            1,
            SKEWED,
            1,
            [1, 1, 3, 0, 2, 2, 1, 0, 0, 4, 2, 2, 3],
        ),
        (
            &numbered(&rt, 21)?,
            4,
            SKEWED,
            1,
            [16, 15, 15, 3, 14, 11, 20, 15, 9, 6, 5, 11, 15],
        ),
        (
            &numbered(&rt, 400)?,
            3,
            SKEWED,
            1,
            [
                321, 236, 334, 59, 251, 217, 392, 193, 251, 116, 62, 254, 291,
            ],
        ),
        (
            &numbered(&rt, 400)?,
            3,
            UNIFORM,
            1,
            [
                379, 236, 315, 59, 147, 217, 392, 193, 250, 106, 41, 203, 291,
            ],
        ),
        (
            &forty,
            1,
            FULL,
            7,
            [39, 35, 38, 39, 24, 38, 25, 10, 1, 20, 33, 14, 6],
        ),
        (
            &forty,
            64,
            SKEWED,
            1,
            [25, NONE, 25, NONE, NONE, NONE, NONE, 20, 17, 7, 5, 14, 23],
        ),
    ] {
        for how in SEARCHES {
            match built(&rt, keys, &[seed], shape, parts, 16_777_216, how)? {
                Ok(index) => {
                    for (key, value) in BYTES.iter().zip(&values) {
                        let found = index.lookup(key).unwrap_or(NONE);
                        assert_eq!(rt; found, *value, "{key:?} by {how:?}");
                    }
                    for (place, value) in values[BYTES.len()..].iter().enumerate() {
                        assert!(rt; (place as u64) < six.len());
                        let found = index.lookup(six.key(place as u64)).unwrap_or(NONE);
                        assert_eq!(rt; found, *value, "key {place} by {how:?}");
                    }
                }
                Err(_) => panic!(rt; "{parts} partitions by {how:?}"),
            }
        }
    }
    Ok(())
}

// Stands for a key without a value.
const NONE: u64 = 1000;

const BYTES: [&[u8]; 7] = [b"", b"x", b"k3", b"y", b"\r", &[0x00, 0xff], &[0x80]];

// The key is alone in partition 5 of 8; that of another partition has no value.
#[test]
fn an_empty_partition_has_no_values(rt: HostRuntime) -> Result<(), Fail> {
    let mut keys = KeyList::new(rt.alloc());
    keys.push(b"")?;
    for how in SEARCHES {
        match built(&rt, &keys, &[1], SKEWED, 8, 16_777_216, how)? {
            Ok(index) => {
                for (key, value) in [(b"".as_slice(), Some(0)), (b"k3", Some(0)), (b"k4", None)] {
                    assert_eq!(rt; index.lookup(key), value, "{how:?}");
                }
            }
            Err(_) => panic!(rt; "by {how:?}"),
        }
    }
    Ok(())
}
