// Checks whose answers an independent program gave.
mod lists;

use self::lists::{FIVE, FORTY, OTHER_LISTS, TWENTY_ONE};
use hem_build::{Built, How, Map, Settings, Shape, build_keys};
use index_file::{Code, Encoding, read_index, write_index};
use key_check::{CheckErr, Checked, KeyMark, check_keys};
use murmur64::murmur64;
use pth_outside::{MemFiles, read_keys};
use std::alloc::Global;
use std::process::Abort;
use std::sync::Wait;
use std::test::*;
use std::thread::Threads;
use turn_search::FreeGate;

// The mark of the empty key, and that of x, at seed 1.
const EMPTY: KeyMark = KeyMark {
    sum: 0xc6a4_a793_5bd0_64dc,
    xor: 0x777d_efef_88a7_076e,
};

const X: KeyMark = KeyMark {
    sum: 0x9a5d_b2cd_2c1f_d6ce,
    xor: 0x3fc2_3ca7_2b33_222a,
};

// Files of which the first has these lines.
fn with_lines(alloc: Global, lines: &[u8]) -> Result<MemFiles, Fail> {
    let mut files = MemFiles::new(alloc, Vec::new(alloc), 70_000);
    files.put("lines", lines).ok().ok_or("memory")?;
    Ok(files)
}

// Builds the index of some lines at seed 1.
fn built<R: Abort + AllocGlobal + Threads + Wait + Sync>(
    rt: &R,
    lines: &[u8],
    parts: u32,
) -> Result<Built, Fail> {
    assert!(rt; 1 <= parts);
    assert!(rt; parts <= 4096);
    let settings = Settings {
        seeds: Vec::from_slice(rt.alloc(), &[1])?,
        shape: Shape {
            alpha: 98,
            c: 700,
            map: Map::Skewed,
        },
        parts,
        limit: 16_777_216,
        how: How::Alone,
    };
    let mut files = with_lines(rt.alloc(), lines)?;
    let keys = read_keys(rt.alloc(), &mut files, "lines", 100)
        .ok()
        .ok_or("no keys")?;
    assert!(rt; 1 <= keys.len());
    match build_keys(rt, rt.alloc(), &keys, &settings, &FreeGate) {
        Ok(index) => Ok(index),
        Err(_) => panic!(rt; "no index"),
    }
}

// The file of an index of the second version as one of the first: without its mark.
fn unmarked(rt: &impl Abort, alloc: Global, file: &[u8]) -> Result<Vec<u8>, Fail> {
    assert!(rt; file.len() >= 72);
    let mut bytes = Vec::from_slice(alloc, &file[..4])?;
    bytes.push(1)?;
    bytes.extend_from_slice(&file[5..48])?;
    bytes.extend_from_slice(&file[64..file.len() - 8])?;
    let digest = murmur64(&bytes, 0);
    bytes.extend_from_slice(&digest.to_le_bytes())?;
    Ok(bytes)
}

// What the check of some lines comes to, against the index of others, of the second version and of the first.
fn checks<R: Abort + AllocGlobal + Threads + Wait + Sync>(
    rt: &R,
    keys: &[u8],
    parts: u32,
    lines: &[u8],
) -> Result<(Checked, Checked), Fail> {
    let enc = Encoding {
        front: Code::Dict,
        back: Some(Code::Dict),
    };
    let mut file = Vec::new(rt.alloc());
    write_index(&built(rt, keys, parts)?, enc, &mut file)
        .ok()
        .ok_or("memory")?;
    let second = read_index(rt.alloc(), &file)?;
    let first = read_index(rt.alloc(), &unmarked(rt, rt.alloc(), &file)?)?;
    let mut files = with_lines(rt.alloc(), lines)?;
    let found = check_keys(rt.alloc(), &second, &mut files, "lines")
        .ok()
        .ok_or("fault")?;
    let before = check_keys(rt.alloc(), &first, &mut files, "lines")
        .ok()
        .ok_or("fault")?;
    Ok((found, before))
}

// Appends lines, each with its feed.
fn put_lines(into: &mut Vec<u8>, lines: &[&str]) -> Result<(), Fail> {
    for line in lines {
        into.extend_from_slice(line.as_bytes())?;
        into.push(b'\n')?;
    }
    Ok(())
}

// Both checks of some lines come to this.
fn ends<R: Abort + AllocGlobal + Threads + Wait + Sync>(
    rt: &R,
    keys: &[u8],
    parts: u32,
    lines: &[u8],
    want: Checked,
) -> Result<(), Fail> {
    let (found, before) = checks(rt, keys, parts, lines)?;
    assert_eq!(rt; found, want, "{lines:?}");
    assert_eq!(rt; before, want, "{lines:?}");
    Ok(())
}

// Both checks of some lines are good.
fn are_good<R: Abort + AllocGlobal + Threads + Wait + Sync>(
    rt: &R,
    keys: &[u8],
    parts: u32,
    lines: &[u8],
) -> Result<(), Fail> {
    let (found, before) = checks(rt, keys, parts, lines)?;
    assert!(rt; matches!(&found, Checked::Good { .. }), "{lines:?}");
    assert_eq!(rt; found, before, "{lines:?}");
    Ok(())
}

// The keys of an index in any order, with and without a feed at the end, or with one too few or too many.
fn of_its_keys<R: Abort + AllocGlobal + Threads + Wait + Sync>(
    rt: &R,
    keys: &[&str],
    parts: u32,
) -> Result<(), Fail> {
    let Some((first, rest)) = keys.split_first() else {
        return Err(Fail::from("no keys"));
    };
    let n = keys.len() as u64;
    let (mut all, mut less) = (Vec::new(rt.alloc()), Vec::new(rt.alloc()));
    put_lines(&mut all, keys)?;
    put_lines(&mut less, rest)?;
    are_good(rt, &all, parts, &all)?;
    ends(rt, &all, parts, b"", Checked::Counts { n, lines: 0 })?;
    let lines = rest.len() as u64;
    ends(rt, &all, parts, &less, Checked::Counts { n, lines })?;
    // The first key as the last line.
    put_lines(&mut less, &[*first])?;
    are_good(rt, &all, parts, &less)?;
    let _ = less.pop();
    are_good(rt, &all, parts, &less)?;
    with_one_more(rt, &all, parts, first, keys.len() as u64 + 1)
}

// The first key comes once more: at the front, and as the line with this number.
fn with_one_more<R: Abort + AllocGlobal + Threads + Wait + Sync>(
    rt: &R,
    all: &[u8],
    parts: u32,
    first: &str,
    line: u64,
) -> Result<(), Fail> {
    let mut more = Vec::new(rt.alloc());
    put_lines(&mut more, &[first])?;
    more.extend_from_slice(all)?;
    let second = Checked::Repeats {
        line: 2,
        earlier: 1,
    };
    ends(rt, all, parts, &more, second)?;
    let mut again = Vec::from_slice(rt.alloc(), all)?;
    put_lines(&mut again, &[first])?;
    ends(
        rt,
        all,
        parts,
        &again,
        Checked::Repeats { line, earlier: 1 },
    )
}

#[test]
fn lists_of_the_keys_end_as_by_an_independent_program(rt: HostRuntime) -> Result<(), Fail> {
    of_its_keys(&rt, &FIVE, 1)?;
    of_its_keys(&rt, &TWENTY_ONE, 4)?;
    of_its_keys(&rt, &FORTY, 64)
}

#[test]
fn other_lists_end_as_by_an_independent_program(rt: HostRuntime) -> Result<(), Fail> {
    for (keys, parts, lines, want) in OTHER_LISTS {
        let mut all = Vec::new(rt.alloc());
        put_lines(&mut all, keys)?;
        ends(&rt, &all, parts, lines, want)?;
    }
    Ok(())
}

#[test]
fn a_list_with_another_mark_differs_only_where_a_mark_is_kept(rt: HostRuntime) -> Result<(), Fail> {
    let good = Checked::Good { mark: EMPTY };
    let differs = Checked::Differs {
        kept: EMPTY,
        counted: X,
    };
    let stranger = Checked::Good { mark: X };
    for parts in [1, 8] {
        assert_eq!(rt; checks(&rt, b"\n", parts, b"\n")?, (good, good));
        assert_eq!(rt; checks(&rt, b"\n", parts, b"x\n")?, (differs, stranger));
    }
    Ok(())
}

#[test]
fn a_line_of_65536_bytes_is_too_long(rt: HostRuntime) -> Result<(), Fail> {
    let mut lines = Vec::from_slice(rt.alloc(), b"k3\n")?;
    for _ in 0..65_536 {
        lines.push(b'k')?;
    }
    let long = Checked::TooLong { line: 2 };
    let mut all = Vec::new(rt.alloc());
    put_lines(&mut all, &FIVE)?;
    assert_eq!(rt; checks(&rt, &all, 1, &lines)?, (long, long));
    Ok(())
}

#[test]
fn each_failing_read_is_a_fault(rt: HostRuntime) -> Result<(), Fail> {
    let mut file = Vec::new(rt.alloc());
    let enc = Encoding {
        front: Code::Compact,
        back: None,
    };
    let mut all = Vec::new(rt.alloc());
    put_lines(&mut all, &FIVE)?;
    write_index(&built(&rt, &all, 1)?, enc, &mut file)
        .ok()
        .ok_or("memory")?;
    let index = read_index(rt.alloc(), &file)?;
    for number in 0..2u64 {
        let mut files = MemFiles::new(rt.alloc(), vec![in rt.alloc(); number]?, 100);
        files.put("lines", &all).ok().ok_or("memory")?;
        let found = check_keys(rt.alloc(), &index, &mut files, "lines");
        assert_eq!(rt; found, Err(CheckErr::Fault), "call {number}");
    }
    let mut none = MemFiles::new(rt.alloc(), Vec::new(rt.alloc()), 100);
    let missing = check_keys(rt.alloc(), &index, &mut none, "lines");
    assert_eq!(rt; missing, Err(CheckErr::Fault));
    Ok(())
}
