// Checks of key files as whole runs.
use crate::index_runs::{INDEX, bytes_of, files_of, runs};
use crate::pilot_runs::{only, texts};
use pth_outside::MemSink;
use pth_top::run;
use std::process::Abort;
use std::sync::Wait;
use std::test::Fail;
use std::thread::Threads;
use turn_search::FreeGate;

// The index of one empty key in a file of the first version.
pub(crate) const UNMARKED: [u64; 18] = [
    0x0003_0301_5848_5450,
    1,
    1,
    98,
    700,
    1,
    1,
    1,
    0,
    1,
    0,
    1,
    0,
    1,
    0,
    0,
    3,
    0x42df_603a_c13b_8244,
];

pub(crate) const DIFFER: &str = "keys differ: kept c6a4a7935bd064dc 777defef88a7076e \
    counted 9a5db2cd2c1fd6ce 3fc23ca72b33222a\n";

const LETTERS: &[u8] = b"a\nb\nc\nd\ne\nf\n";

// A check of lines K against an index I, which stays.
fn checks<R: Abort + AllocGlobal + Threads + Wait + Sync>(
    rt: &R,
    index: &[u8],
    lines: &[u8],
    status: u8,
    text: &str,
) -> Result<(), Fail> {
    let mut files = files_of(rt, Vec::new(rt.alloc()), lines, index, b"")?;
    runs(
        rt,
        &["check", "I", "K"],
        &mut files,
        status,
        text.as_bytes(),
        index,
    )
}

#[test]
fn a_check_of_one_key_has_its_text(rt: HostRuntime) -> Result<(), Fail> {
    let marked = bytes_of(&rt, &INDEX)?;
    let unmarked = bytes_of(&rt, &UNMARKED)?;
    for (lines, status, text) in [
        (b"".as_slice(), 7, "index has 1 keys, list has 0\n"),
        (b"\n", 0, "good 1 keys\n"),
        (LETTERS, 7, "line 2 repeats line 1\n"),
        (b"\n\n", 7, "line 2 repeats line 1\n"),
    ] {
        checks(&rt, &marked, lines, status, text)?;
        checks(&rt, &unmarked, lines, status, text)?;
    }
    checks(&rt, &marked, b"x\n", 7, DIFFER)?;
    checks(&rt, &unmarked, b"x\n", 0, "good 1 keys\n")
}

#[test]
fn a_check_of_more_keys_has_its_text(rt: HostRuntime) -> Result<(), Fail> {
    for (keys, parts, lines, status, text) in [
        (
            b"\n".as_slice(),
            "parts=8",
            LETTERS,
            7,
            "line 1 has no value\n",
        ),
        (b"\n", "parts=8", b"x\n", 7, DIFFER),
        (
            b"k0\nk1\nk2\nk3\nk4\n",
            "parts=1",
            LETTERS,
            7,
            "line 4 repeats line 2\n",
        ),
        (
            b"k0\nk1\nk2\nk3\nk4\n",
            "parts=1",
            b"k4\nk3\nk2\nk1\nk0",
            0,
            "good 5 keys\n",
        ),
        (
            b"k0\nk1\nk2\nk3\nk4\n",
            "parts=1",
            b"k0\nk1\nk2\nk3\n",
            7,
            "index has 5 keys, list has 4\n",
        ),
    ] {
        let mut files = files_of(&rt, Vec::new(rt.alloc()), keys, b"", b"")?;
        let built = texts(&rt, &["build", "K", "I", parts])?;
        let mut out = MemSink::new(rt.alloc(), Vec::new(rt.alloc()));
        assert_eq!(&rt;
            run(&rt, rt.alloc(), &built, &mut files, &mut out, &FreeGate),
            0
        );
        let index = Vec::from_slice(rt.alloc(), files.get("I").unwrap_or(b""))?;
        checks(&rt, &index, lines, status, text)?;
    }
    Ok(())
}

#[test]
fn a_check_of_a_long_line_is_refused(rt: HostRuntime) -> Result<(), Fail> {
    let marked = bytes_of(&rt, &INDEX)?;
    let lines = vec![in rt.alloc(); b'a'; 65_536]?;
    checks(&rt, &marked, &lines, 3, "line 1 is too long\n")
}

#[test]
fn each_call_of_a_check_may_fail(rt: HostRuntime) -> Result<(), Fail> {
    let whole = bytes_of(&rt, &INDEX)?;
    let words = ["check", "I", "K"];
    // Three reads of the index and two of the lines.
    for call in 0..5 {
        let mut files = files_of(&rt, only(&rt, call)?, b"\n", &whole, b"")?;
        runs(&rt, &words, &mut files, 2, b"file fault\n", &whole)?;
    }
    let mut files = files_of(&rt, only(&rt, 5)?, b"\n", &whole, b"")?;
    runs(&rt, &words, &mut files, 0, b"good 1 keys\n", &whole)
}

#[test]
fn a_faulty_index_makes_no_call_on_the_lines(rt: HostRuntime) -> Result<(), Fail> {
    let refused = b"index refused: short\n";
    let mut files = files_of(&rt, Vec::new(rt.alloc()), b"\n", b"old", b"")?;
    runs(
        &rt,
        &["check", "I", "missing"],
        &mut files,
        6,
        refused,
        b"old",
    )?;
    runs(
        &rt,
        &["check", "missing", "K"],
        &mut files,
        2,
        b"file fault\n",
        b"old",
    )?;
    let whole = bytes_of(&rt, &INDEX)?;
    files.put("I", &whole)?;
    runs(
        &rt,
        &["check", "I", "missing"],
        &mut files,
        2,
        b"file fault\n",
        &whole,
    )
}
