// Builds of indexes and queries as whole runs: each call that fails in turn, and what becomes of the files.
use crate::pilot_runs::{only, texts};
use pth_outside::{MemFiles, MemSink};
use pth_top::run;
use std::process::Abort;
use std::sync::Wait;
use std::test::Fail;
use std::thread::Threads;
use turn_search::FreeGate;

// The index of one empty key with the settings by default.
pub(crate) const INDEX: [u64; 20] = [
    0x0003_0302_5848_5450,
    1,
    1,
    98,
    700,
    1,
    0xc6a4_a793_5bd0_64dc,
    0x777d_efef_88a7_076e,
    1,
    1,
    0,
    1,
    0,
    1,
    0,
    1,
    0,
    0,
    3,
    0x6ffc_a3a7_eecd_96f5,
];

// The bytes of these numbers.
pub(crate) fn bytes_of<R: AllocGlobal>(rt: &R, numbers: &[u64]) -> Result<Vec<u8>, Fail> {
    let mut bytes = Vec::new(rt.alloc());
    for number in numbers {
        bytes.extend_from_slice(&number.to_le_bytes())?;
    }
    Ok(bytes)
}

// A run of words over files K, I and Q, with the status, the text, and what I has afterwards.
pub(crate) fn runs<R: Abort + AllocGlobal + Threads + Wait + Sync>(
    rt: &R,
    words: &[&str],
    files: &mut MemFiles,
    status: u8,
    text: &[u8],
    index: &[u8],
) -> Result<(), Fail> {
    let all = texts(rt, words)?;
    let mut out = MemSink::new(rt.alloc(), Vec::new(rt.alloc()));
    let answer = run(rt, rt.alloc(), &all, files, &mut out, &FreeGate);
    assert_eq!(rt; answer, status, "for {words:?}");
    assert_eq!(rt; out.bytes(), text, "for {words:?}");
    assert_eq!(rt; files.get("I"), Some(index), "for {words:?}");
    Ok(())
}

// Files K and I, and Q if there are queries.
pub(crate) fn files_of<R: AllocGlobal>(
    rt: &R,
    fails: Vec<u64>,
    keys: &[u8],
    index: &[u8],
    queries: &[u8],
) -> Result<MemFiles, Fail> {
    let mut files = MemFiles::new(rt.alloc(), fails, 100);
    files.put("K", keys)?;
    files.put("I", index)?;
    files.put("Q", queries)?;
    Ok(files)
}

const SUMMARY: &[u8] = b"built keys 1 seed 1 size 3 bytes 160\n";

#[test]
fn an_index_is_written_and_asked(rt: HostRuntime) -> Result<(), Fail> {
    let whole = bytes_of(&rt, &INDEX)?;
    let mut files = files_of(&rt, Vec::new(rt.alloc()), b"\n", b"old", b"\nx\n")?;
    files.put("I.tmp", b"unfinished")?;
    runs(&rt, &["build", "K", "I"], &mut files, 0, SUMMARY, &whole)?;
    assert_eq!(&rt; files.get("I.tmp"), None);
    assert!(&rt; files.created("I.tmp"));
    assert!(&rt; !files.created("I"));
    runs(&rt, &["query", "I", "Q"], &mut files, 0, b"0\n0\n", &whole)?;
    files.put("Q", b"")?;
    runs(&rt, &["query", "I", "Q"], &mut files, 0, b"", &whole)
}

#[test]
fn a_query_of_an_empty_partition_has_no_value(rt: HostRuntime) -> Result<(), Fail> {
    let mut files = files_of(&rt, Vec::new(rt.alloc()), b"\n", b"", b"\nk3\nk4\ny")?;
    let built = texts(&rt, &["build", "K", "I", "parts=8"])?;
    let mut out = MemSink::new(rt.alloc(), Vec::new(rt.alloc()));
    assert_eq!(&rt;
        run(&rt, rt.alloc(), &built, &mut files, &mut out, &FreeGate),
        0
    );
    let asked = texts(&rt, &["query", "I", "Q"])?;
    let mut out = MemSink::new(rt.alloc(), Vec::new(rt.alloc()));
    assert_eq!(&rt;
        run(&rt, rt.alloc(), &asked, &mut files, &mut out, &FreeGate),
        0
    );
    assert_eq!(&rt; out.bytes(), b"0\n0\n-\n-\n".as_slice());
    Ok(())
}

#[test]
fn refusals_change_no_file(rt: HostRuntime) -> Result<(), Fail> {
    for (keys, words, status, text) in [
        (
            b"".as_slice(),
            ["build", "K", "I"].as_slice(),
            3,
            "no keys\n",
        ),
        (
            b"a\nb\na\n",
            &["build", "K", "I"],
            4,
            "repeated key: lines 1 and 3\n",
        ),
        (
            b"a\nb\n",
            &["build", "K", "I", "limit=1"],
            3,
            "too many keys: limit 1\n",
        ),
        (
            b"\n",
            &["build", "K", "I", "alpha=49"],
            1,
            "word 3: range\n",
        ),
        (b"\n", &["build", "I.tmp", "I"], 1, "word 1: same name\n"),
        (b"\n", &["build", "missing", "I"], 2, "file fault\n"),
        (b"\n", &["query", "I", "Q"], 6, "index refused: short\n"),
        (
            b"\n",
            &["query", "I", "missing"],
            6,
            "index refused: short\n",
        ),
        (b"\n", &["query", "missing", "Q"], 2, "file fault\n"),
    ] {
        refuses(&rt, words, keys, status, text)?;
    }
    Ok(())
}

// A refusal leaves all files as they were.
fn refuses<R: Abort + AllocGlobal + Threads + Wait + Sync>(
    rt: &R,
    words: &[&str],
    keys: &[u8],
    status: u8,
    text: &str,
) -> Result<(), Fail> {
    let mut files = files_of(rt, Vec::new(rt.alloc()), keys, b"old", b"x\n")?;
    files.put("I.tmp", b"unfinished")?;
    runs(rt, words, &mut files, status, text.as_bytes(), b"old")?;
    assert_eq!(rt; files.get("I.tmp").unwrap_or(b""), b"unfinished".as_slice());
    let found = files.get("K");
    assert_eq!(rt; found.is_some(), true);
    assert_eq!(rt; found.unwrap_or(b""), keys);
    Ok(())
}

#[test]
fn each_call_of_a_build_may_fail(rt: HostRuntime) -> Result<(), Fail> {
    let whole = bytes_of(&rt, &INDEX)?;
    let words = ["build", "K", "I"];
    // Two reads, one file that is made, one piece and one that is put in place.
    for call in 0..5 {
        let mut files = files_of(&rt, only(&rt, call)?, b"\n", b"old", b"")?;
        runs(&rt, &words, &mut files, 2, b"file fault\n", b"old")?;
    }
    let mut files = files_of(&rt, only(&rt, 5)?, b"\n", b"old", b"")?;
    runs(&rt, &words, &mut files, 0, SUMMARY, &whole)
}

#[test]
fn each_call_of_a_query_may_fail(rt: HostRuntime) -> Result<(), Fail> {
    let whole = bytes_of(&rt, &INDEX)?;
    let words = ["query", "I", "Q"];
    // Three reads of the index and two of the queries.
    for call in 0..5 {
        let mut files = files_of(&rt, only(&rt, call)?, b"\n", &whole, b"x\n")?;
        runs(&rt, &words, &mut files, 2, b"file fault\n", &whole)?;
    }
    let mut files = files_of(&rt, only(&rt, 5)?, b"\n", &whole, b"x\n")?;
    runs(&rt, &words, &mut files, 0, b"0\n", &whole)
}

#[test]
fn a_sink_that_fails_leaves_the_new_index(rt: HostRuntime) -> Result<(), Fail> {
    let whole = bytes_of(&rt, &INDEX)?;
    shows_half(&rt, b"\n", 8, SUMMARY, &whole)?;
    shows_half(&rt, b"", 3, b"no keys\n", b"old")
}

// A build into a sink that fails, with the status, the text of which half is there, and what I has afterwards.
fn shows_half<R: Abort + AllocGlobal + Threads + Wait + Sync>(
    rt: &R,
    keys: &[u8],
    status: u8,
    text: &[u8],
    index: &[u8],
) -> Result<(), Fail> {
    let words = texts(rt, &["build", "K", "I"])?;
    let mut files = files_of(rt, Vec::new(rt.alloc()), keys, b"old", b"")?;
    let mut out = MemSink::new(rt.alloc(), only(rt, 0)?);
    assert_eq!(rt;
        run(rt, rt.alloc(), &words, &mut files, &mut out, &FreeGate),
        status
    );
    assert_eq!(rt; out.bytes(), &text[..text.len() / 2]);
    assert_eq!(rt; files.get("I"), Some(index));
    Ok(())
}
