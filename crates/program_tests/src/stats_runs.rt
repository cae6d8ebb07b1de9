// What `stats` prints of the index of one empty key, in both versions and under both maps, and of files with a fault.
use crate::pilot_runs::{only, texts};
use hex::decode;
use pth_outside::{MemFiles, MemSink};
use pth_top::run;
use std::process::Abort;
use std::sync::Wait;
use std::test::Fail;
use std::thread::Threads;
use turn_search::FreeGate;

// The index with the settings by default, in the first version.
const FIRST: &str =
    "5054485801030300010000000000000001000000000000006200000000000000bc0200000000000001000000\
    000000000100000000000000010000000000000000000000000000000100000000000000000000000000000001000000\
    000000000000000000000000010000000000000000000000000000000000000000000000030000000000000044823bc1\
    3a60df42";

// The same in the second version, with the mark of the keys.
const SECOND: &str =
    "5054485802030300010000000000000001000000000000006200000000000000bc0200000000000001000000\
    00000000dc64d05b93a7a4c66e07a788efef7d7701000000000000000100000000000000000000000000000001000000\
    000000000000000000000000010000000000000000000000000000000100000000000000000000000000000000000000\
    000000000300000000000000f596cdeea7a3fc6f";

// The same under the uniform map.
const UNIFORM: &str =
    "5054485802030301010000000000000001000000000000006200000000000000bc0200000000000001000000\
    00000000dc64d05b93a7a4c66e07a788efef7d7701000000000000000100000000000000000000000000000001000000\
    000000000000000000000000010000000000000000000000000000000100000000000000000000000000000000000000\
    000000000300000000000000d4c69c0939ba8574";

const OF_FIRST: &str = "version 1\nseed 1\nkeys 1\nalpha 98\nc 700\nparts 1\nenc d-d\n\
    size 3\nbuckets 7\nfree 2\nbytes 144\nmap skewed\n";

const OF_SECOND: &str = "version 2\nseed 1\nkeys 1\nalpha 98\nc 700\nparts 1\nenc d-d\n\
    size 3\nbuckets 7\nfree 2\nbytes 160\nmark c6a4a7935bd064dc 777defef88a7076e\nmap skewed\n";

const OF_UNIFORM: &str = "version 2\nseed 1\nkeys 1\nalpha 98\nc 700\nparts 1\nenc d-d\n\
    size 3\nbuckets 7\nfree 2\nbytes 160\nmark c6a4a7935bd064dc 777defef88a7076e\nmap uniform\n";

// Runs `stats` over a file I of these bytes in hex, where these calls fail, and looks at the status and the text.
fn says<R: Abort + AllocGlobal + Threads + Wait + Sync>(
    rt: &R,
    fails: Vec<u64>,
    index: &str,
    status: u8,
    text: &str,
) -> Result<(), Fail> {
    let words = texts(rt, &["stats", "I"])?;
    let bytes = decode(rt.alloc(), index).ok().ok_or("no hex")?;
    let mut files = MemFiles::new(rt.alloc(), fails, 100);
    files.put("I", &bytes)?;
    let mut out = MemSink::new(rt.alloc(), Vec::new(rt.alloc()));
    assert_eq!(rt;
        run(rt, rt.alloc(), &words, &mut files, &mut out, &FreeGate),
        status
    );
    assert_eq!(rt; out.bytes(), text.as_bytes());
    assert_eq!(rt; files.get("I"), Some(bytes.as_slice()));
    Ok(())
}

#[test]
fn both_versions_and_both_maps_have_their_lines(rt: HostRuntime) -> Result<(), Fail> {
    for (index, text) in [
        (FIRST, OF_FIRST),
        (SECOND, OF_SECOND),
        (UNIFORM, OF_UNIFORM),
    ] {
        says(&rt, Vec::new(rt.alloc()), index, 0, text)?;
    }
    Ok(())
}

#[test]
fn a_faulty_index_is_refused(rt: HostRuntime) -> Result<(), Fail> {
    for (index, text) in [
        (&FIRST[..110], "index refused: short\n"),
        (
            &FIRST[..286],
            "index refused: digest 16095929669823644672 4209104878113685821\n",
        ),
        (
            &SECOND[..318],
            "index refused: digest 18204578762854954240 10598689401823190046\n",
        ),
    ] {
        says(&rt, Vec::new(rt.alloc()), index, 6, text)?;
    }
    Ok(())
}

#[test]
fn each_call_of_stats_may_fail(rt: HostRuntime) -> Result<(), Fail> {
    // Three reads, the last of which finds the end.
    for call in 0..3 {
        says(&rt, only(&rt, call)?, SECOND, 2, "file fault\n")?;
    }
    says(&rt, only(&rt, 3)?, SECOND, 0, OF_SECOND)
}
