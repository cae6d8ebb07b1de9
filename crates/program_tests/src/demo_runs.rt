// What `demo` prints, as an independent program computed it, and that it makes no call on files.
use crate::pilot_runs::texts;
use pth_outside::{MemFiles, MemSink};
use pth_top::run;
use std::process::Abort;
use std::sync::Wait;
use std::test::Fail;
use std::thread::Threads;
use turn_search::FreeGate;

const ONE_KEY: &str = "keys 1 seed 1\n\
    c bytes 112 sum 0\npc bytes 112 sum 0\nd bytes 128 sum 0\nef bytes 112 sum 0\n\
    c-c bytes 128 sum 0\nc-pc bytes 128 sum 0\nc-d bytes 144 sum 0\nc-ef bytes 128 sum 0\n\
    pc-c bytes 128 sum 0\npc-pc bytes 128 sum 0\npc-d bytes 144 sum 0\npc-ef bytes 128 sum 0\n\
    d-c bytes 144 sum 0\nd-pc bytes 144 sum 0\nd-d bytes 160 sum 0\nd-ef bytes 144 sum 0\n\
    ef-c bytes 128 sum 0\nef-pc bytes 128 sum 0\nef-d bytes 144 sum 0\nef-ef bytes 128 sum 0\n";

const TEN_KEYS: &str = "keys 10 seed 1\n\
    c bytes 128 sum 45\npc bytes 128 sum 45\nd bytes 160 sum 45\nef bytes 120 sum 45\n\
    c-c bytes 144 sum 45\nc-pc bytes 144 sum 45\nc-d bytes 176 sum 45\nc-ef bytes 136 sum 45\n\
    pc-c bytes 144 sum 45\npc-pc bytes 144 sum 45\npc-d bytes 176 sum 45\npc-ef bytes 136 sum 45\n\
    d-c bytes 168 sum 45\nd-pc bytes 168 sum 45\nd-d bytes 200 sum 45\nd-ef bytes 160 sum 45\n\
    ef-c bytes 144 sum 45\nef-pc bytes 144 sum 45\nef-d bytes 176 sum 45\nef-ef bytes 136 sum 45\n";

// Runs `demo` with these words over files of which each call fails, and gives its text.
fn text_of<R: Abort + AllocGlobal + Threads + Wait + Sync>(
    rt: &R,
    count: &str,
    seed: &str,
) -> Result<Vec<u8>, Fail> {
    let words = texts(rt, &["demo", count, seed])?;
    let mut fails = Vec::new(rt.alloc());
    for call in 0..100 {
        fails.push(call)?;
    }
    let mut files = MemFiles::new(rt.alloc(), fails, 1);
    let mut out = MemSink::new(rt.alloc(), Vec::new(rt.alloc()));
    let status = run(rt, rt.alloc(), &words, &mut files, &mut out, &FreeGate);
    assert_eq!(rt; status, 0);
    Ok(Vec::from_slice(rt.alloc(), out.bytes())?)
}

#[test]
fn keys_have_their_lines(rt: HostRuntime) -> Result<(), Fail> {
    for (count, seed, text) in [
        ("1", "1", ONE_KEY),
        ("1", "0", ONE_KEY),
        ("10", "5", TEN_KEYS),
    ] {
        assert_eq!(&rt; text_of(&rt, count, seed)?.as_slice(), text.as_bytes());
    }
    Ok(())
}

// The sum is that of the numbers below the count, in the 20 lines after the first, and nothing stands behind the last feed.
#[test]
fn each_encoding_has_the_same_sum(rt: HostRuntime) -> Result<(), Fail> {
    for (count, seed, sum) in [
        ("2", "7", b" sum 1".as_slice()),
        ("100", "18446744073709551615", b" sum 4950"),
        ("5000", "1", b" sum 12497500"),
    ] {
        let text = text_of(&rt, count, seed)?;
        let mut last = 0;
        for (i, line) in text.split(|b| *b == b'\n').enumerate() {
            match i {
                0 => {}
                21 => assert!(&rt; line.is_empty()),
                _ => assert!(&rt; line.ends_with(sum), "line {i} of {count}"),
            }
            last = i;
        }
        assert_eq!(&rt; last, 21);
    }
    Ok(())
}
