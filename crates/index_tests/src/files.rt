// Files that are read as what they are, or refused by their first fault.
use bucket_map::{Map, Shape};
use index_file::{Code, Encoding, Head, IndexFault, KeyMark, read_index, write_marked};
use murmur64::murmur64;
use pilot_codecs::FormFault;
use std::alloc::Global;
use std::process::Abort;
use std::test::*;

// The file of one empty key, of the second version.
pub(crate) const MARKED_FILE: [u8; 160] = [
    80, 84, 72, 88, 2, 3, 3, 0, 1, 0, 0, 0, 0, 0, 0, 0, 1, 0, 0, 0, 0, 0, 0, 0, 98, 0, 0, 0, 0, 0,
    0, 0, 188, 2, 0, 0, 0, 0, 0, 0, 1, 0, 0, 0, 0, 0, 0, 0, 220, 100, 208, 91, 147, 167, 164, 198,
    110, 7, 167, 136, 239, 239, 125, 119, 1, 0, 0, 0, 0, 0, 0, 0, 1, 0, 0, 0, 0, 0, 0, 0, 0, 0, 0,
    0, 0, 0, 0, 0, 1, 0, 0, 0, 0, 0, 0, 0, 0, 0, 0, 0, 0, 0, 0, 0, 1, 0, 0, 0, 0, 0, 0, 0, 0, 0, 0,
    0, 0, 0, 0, 0, 1, 0, 0, 0, 0, 0, 0, 0, 0, 0, 0, 0, 0, 0, 0, 0, 0, 0, 0, 0, 0, 0, 0, 0, 3, 0, 0,
    0, 0, 0, 0, 0, 245, 150, 205, 238, 167, 163, 252, 111,
];

// The same of the first version, which has no mark.
const UNMARKED_FILE: [u8; 144] = [
    80, 84, 72, 88, 1, 3, 3, 0, 1, 0, 0, 0, 0, 0, 0, 0, 1, 0, 0, 0, 0, 0, 0, 0, 98, 0, 0, 0, 0, 0,
    0, 0, 188, 2, 0, 0, 0, 0, 0, 0, 1, 0, 0, 0, 0, 0, 0, 0, 1, 0, 0, 0, 0, 0, 0, 0, 1, 0, 0, 0, 0,
    0, 0, 0, 0, 0, 0, 0, 0, 0, 0, 0, 1, 0, 0, 0, 0, 0, 0, 0, 0, 0, 0, 0, 0, 0, 0, 0, 1, 0, 0, 0, 0,
    0, 0, 0, 0, 0, 0, 0, 0, 0, 0, 0, 1, 0, 0, 0, 0, 0, 0, 0, 0, 0, 0, 0, 0, 0, 0, 0, 0, 0, 0, 0, 0,
    0, 0, 0, 3, 0, 0, 0, 0, 0, 0, 0, 68, 130, 59, 193, 58, 96, 223, 66,
];

// The same bytes with others in place of some, and the digest that belongs to them.
fn with(
    rt: &impl Abort,
    alloc: Global,
    file: &[u8],
    at: usize,
    new: &[u8],
) -> Result<Vec<u8>, Fail> {
    assert!(rt; file.len() >= 8);
    let body = file.len() - 8;
    assert!(rt; at <= body);
    assert!(rt; new.len() <= body - at);
    let mut bytes = Vec::from_slice(alloc, &file[..at])?;
    bytes.extend_from_slice(new)?;
    bytes.extend_from_slice(&file[at + new.len()..body])?;
    let digest = murmur64(&bytes, 0);
    bytes.extend_from_slice(&digest.to_le_bytes())?;
    Ok(bytes)
}

// The same bytes with more before the digest, and the digest that belongs to them.
fn longer(rt: &impl Abort, alloc: Global, file: &[u8], more: &[u8]) -> Result<Vec<u8>, Fail> {
    assert!(rt; file.len() >= 8);
    let mut bytes = Vec::from_slice(alloc, &file[..file.len() - 8])?;
    bytes.extend_from_slice(more)?;
    let digest = murmur64(&bytes, 0);
    bytes.extend_from_slice(&digest.to_le_bytes())?;
    Ok(bytes)
}

// The bytes are refused by this fault.
fn refused(rt: &impl Abort, alloc: Global, bytes: &[u8], fault: IndexFault) {
    match read_index(alloc, bytes) {
        Ok(_) => panic!(rt; "read: {fault:?}"),
        Err(found) => assert_eq!(rt; found, fault),
    }
}

#[test]
fn a_file_cut_short_is_short_or_has_no_digest(rt: HostRuntime) {
    let alloc = rt.alloc();
    for file in [MARKED_FILE.as_slice(), UNMARKED_FILE.as_slice()] {
        for len in 0..file.len() {
            let bytes = &file[..len];
            if len < 56 {
                refused(&rt, alloc, bytes, IndexFault::Short);
            } else {
                let (body, end) = bytes.split_at(len - 8);
                let kept = u64::from_le_bytes([
                    end[0], end[1], end[2], end[3], end[4], end[5], end[6], end[7],
                ]);
                let counted = murmur64(body, 0);
                refused(&rt, alloc, bytes, IndexFault::Digest { kept, counted });
            }
        }
    }
}

#[test]
fn a_changed_bit_is_seen(rt: HostRuntime) -> Result<(), Fail> {
    let alloc = rt.alloc();
    for file in [MARKED_FILE.as_slice(), UNMARKED_FILE.as_slice()] {
        let mut bytes = Vec::from_slice(alloc, file)?;
        for at in 0..bytes.len() {
            for mask in [1, 2, 4, 8, 16, 32, 64, 128] {
                let before = bytes[at];
                bytes[at] = before ^ mask;
                match read_index(alloc, &bytes) {
                    Err(IndexFault::Magic) => assert!(rt; at < 4),
                    Err(IndexFault::Version { found }) => {
                        assert_eq!(rt; at, 4);
                        assert_eq!(rt; found, bytes[4]);
                    }
                    Err(IndexFault::Digest { .. }) => assert!(rt; at > 4),
                    _ => panic!(rt; "bits {mask} of byte {at}"),
                }
                bytes[at] = before;
            }
        }
    }
    Ok(())
}

// A number as eight bytes.
const fn number(n: u64) -> [u8; 8] {
    n.to_le_bytes()
}

#[test]
fn fields_with_the_right_digest_are_refused_in_their_order(rt: HostRuntime) -> Result<(), Fail> {
    let alloc = rt.alloc();
    // The place, the bytes that are put there, and the fault.
    for (at, new, fault) in [
        (4, [0].as_slice(), IndexFault::Version { found: 0 }),
        (4, [3].as_slice(), IndexFault::Version { found: 3 }),
        (5, [0].as_slice(), IndexFault::Encoding),
        (5, [5].as_slice(), IndexFault::Encoding),
        (6, [5].as_slice(), IndexFault::Encoding),
        (7, [2].as_slice(), IndexFault::Encoding),
        (16, number(0).as_slice(), IndexFault::Field { at: 16 }),
        (
            16,
            number(67_108_865).as_slice(),
            IndexFault::Field { at: 16 },
        ),
        (
            16,
            number(2).as_slice(),
            IndexFault::Count { kept: 2, sum: 1 },
        ),
        (24, number(49).as_slice(), IndexFault::Field { at: 24 }),
        (24, number(101).as_slice(), IndexFault::Field { at: 24 }),
        (32, number(99).as_slice(), IndexFault::Field { at: 32 }),
        (32, number(1501).as_slice(), IndexFault::Field { at: 32 }),
        (40, number(0).as_slice(), IndexFault::Field { at: 40 }),
        (40, number(4097).as_slice(), IndexFault::Field { at: 40 }),
        (40, number(4096).as_slice(), IndexFault::Short),
        (
            64,
            number(67_108_865).as_slice(),
            IndexFault::Field { at: 64 },
        ),
        (
            96,
            [4].as_slice(),
            IndexFault::Form(FormFault { at: 96, kind: 3 }),
        ),
        (
            80,
            number(4_294_967_295).as_slice(),
            IndexFault::Pilot { part: 0, bucket: 0 },
        ),
    ] {
        let bytes = with(&rt, alloc, &MARKED_FILE, at, new)?;
        refused(&rt, alloc, &bytes, fault);
    }
    Ok(())
}

#[test]
fn lists_with_the_right_digest_are_refused(rt: HostRuntime) -> Result<(), Fail> {
    let alloc = rt.alloc();
    let mut entries = Vec::new(alloc);
    entries.extend_from_slice(&number(1))?;
    entries.extend_from_slice(&number(5))?;
    let free = with(&rt, alloc, &MARKED_FILE, 136, &entries)?;
    refused(&rt, alloc, &free, IndexFault::Free { part: 0, place: 1 });
    let free = with(&rt, alloc, &UNMARKED_FILE, 120, &entries)?;
    refused(&rt, alloc, &free, IndexFault::Free { part: 0, place: 1 });
    let long = longer(&rt, alloc, &MARKED_FILE, &number(0))?;
    refused(&rt, alloc, &long, IndexFault::Long { at: 152 });
    let long = longer(&rt, alloc, &UNMARKED_FILE, &number(0))?;
    refused(&rt, alloc, &long, IndexFault::Long { at: 136 });
    let padding = with(&rt, alloc, &UNMARKED_FILE, 80, &[4])?;
    refused(
        &rt,
        alloc,
        &padding,
        IndexFault::Form(FormFault { at: 80, kind: 3 }),
    );
    let low = with(&rt, alloc, &UNMARKED_FILE, 24, &[49])?;
    refused(&rt, alloc, &low, IndexFault::Field { at: 24 });
    let more = with(&rt, alloc, &UNMARKED_FILE, 16, &[2])?;
    refused(&rt, alloc, &more, IndexFault::Count { kept: 2, sum: 1 });
    let uniform = with(&rt, alloc, &UNMARKED_FILE, 7, &[1])?;
    refused(&rt, alloc, &uniform, IndexFault::Encoding);
    Ok(())
}

const MARK: KeyMark = KeyMark {
    sum: 0xc6a4_a793_5bd0_64dc,
    xor: 0x777d_efef_88a7_076e,
};

#[test]
fn both_versions_are_read_and_written_with_a_mark(rt: HostRuntime) -> Result<(), Fail> {
    let alloc = rt.alloc();
    for (file, version, mark) in [
        (MARKED_FILE.as_slice(), 2, Some(MARK)),
        (UNMARKED_FILE.as_slice(), 1, None),
    ] {
        let index = read_index(alloc, file)?;
        let head = Head {
            version,
            seed: 1,
            n: 1,
            shape: Shape {
                alpha: 98,
                c: 700,
                map: Map::Skewed,
            },
            parts: 1,
            enc: Encoding {
                front: Code::Dict,
                back: Some(Code::Dict),
            },
            size: 3,
            buckets: 7,
            free: 2,
            bytes: file.len() as u64,
            mark,
        };
        assert_eq!(rt; index.head(), head);
        assert_eq!(rt; index.lookup(b""), Some(0));
        assert_eq!(rt; index.lookup(b"x"), Some(0));
        let mut out = Vec::new(alloc);
        out.push(7)?;
        write_marked(&index, MARK, &mut out)?;
        assert_eq!(rt; out[..1], [7][..]);
        assert_eq!(rt; out[1..], MARKED_FILE[..]);
    }
    Ok(())
}
