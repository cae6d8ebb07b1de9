// What no clause says: the texts of whole runs, and that memory is enough for them.
use pth_outside::{MemFiles, MemSink};
use pth_top::run;
use std::fmt::Write;
use std::process::Abort;
use std::sync::Wait;
use std::test::Fail;
use std::thread::Threads;
use turn_search::FreeGate;

// The words, each as a text of its own.
pub(crate) fn texts<R: AllocGlobal>(rt: &R, words: &[&str]) -> Result<Vec<String>, Fail> {
    let mut all = Vec::new(rt.alloc());
    for word in words {
        all.push(String::from_str(rt.alloc(), word)?)?;
    }
    Ok(all)
}

// A list with this one number.
pub(crate) fn only<R: AllocGlobal>(rt: &R, number: u64) -> Result<Vec<u64>, Fail> {
    let mut list = Vec::new(rt.alloc());
    list.push(number)?;
    Ok(list)
}

// The lines k0, k1 and so on, this many.
fn numbered<R: AllocGlobal>(rt: &R, count: u64) -> Result<String, Fail> {
    let mut text = String::new(rt.alloc());
    for number in 0..count {
        write!(text, "k{number}\n")?;
    }
    Ok(text)
}

// Runs the words over a file K of these bytes, and looks at the status and the text.
fn runs<R: Abort + AllocGlobal + Threads + Wait + Sync>(
    rt: &R,
    words: &[&str],
    keys: &[u8],
    status: u8,
    text: &str,
) -> Result<(), Fail> {
    let all = texts(rt, words)?;
    let mut files = MemFiles::new(rt.alloc(), Vec::new(rt.alloc()), 7);
    files.put("K", keys)?;
    let mut out = MemSink::new(rt.alloc(), Vec::new(rt.alloc()));
    let answer = run(rt, rt.alloc(), &all, &mut files, &mut out, &FreeGate);
    assert_eq!(rt; answer, status, "for {words:?}");
    assert_eq!(rt; out.bytes(), text.as_bytes(), "for {words:?}");
    assert_eq!(rt; files.get("K"), Some(keys), "for {words:?}");
    Ok(())
}

const ONE_EMPTY_KEY: &str =
    "seed 1\nkeys 1\npart 0 keys 1 size 3 buckets 7\npilots 0 0 0 0 0 0 0\n";

const UNIFORM: &str = "seed 1\nkeys 20\npart 0 keys 20 size 21 buckets 35\n\
    pilots 0 1 0 0 0 0 7 0 0 0 0 0 0 0 0 0 0 3 0 0 0 7 0 0 0 1 0 6 2 0 0 0 0 0 18\n";

const SKEWED: &str = "seed 1\nkeys 20\npart 0 keys 20 size 21 buckets 35\n\
    pilots 0 1 0 0 0 2 0 0 1 5 3 8 0 0 0 0 0 0 0 0 0 4 0 0 0 0 0 0 8 0 0 0 1 5 0\n";

const UNIFORM_STUCK: &str = "seeds exhausted\n\
    seed 1: part 0 bucket 3 has no pilot\n\
    seed 2: part 0 bucket 13 has no pilot\n\
    seed 3: part 0 bucket 19 has no pilot\n\
    seed 4: part 0 bucket 31 has no pilot\n\
    seed 5: part 0 bucket 30 has no pilot\n\
    seed 6: part 0 bucket 14 has no pilot\n\
    seed 7: part 0 bucket 1 has no pilot\n\
    seed 8: part 0 bucket 13 has no pilot\n";

const SKEWED_STUCK: &str = "seeds exhausted\n\
    seed 1: part 0 bucket 260 has no pilot\n\
    seed 2: part 0 bucket 351 has no pilot\n\
    seed 3: part 0 bucket 90 has no pilot\n\
    seed 4: part 0 bucket 371 has no pilot\n\
    seed 5: part 0 bucket 95 has no pilot\n\
    seed 6: part 0 bucket 44 has no pilot\n\
    seed 7: part 0 bucket 202 has no pilot\n\
    seed 8: part 0 bucket 308 has no pilot\n";

// Two keys that have the same pair of hashes at every seed, a line each.
const TWINS: [u8; 34] = [
    0x67, 0xec, 0x8e, 0x65, 0xa1, 0x8d, 0xeb, 0xbe, 0x5e, 0x55, 0x32, 0xfb, 0xee, 0xa2, 0x93, 0xf8,
    b'\n', 0x67, 0xec, 0x4b, 0x7f, 0x3c, 0x73, 0x93, 0x4d, 0x5e, 0x55, 0xef, 0x14, 0x8a, 0x88,
    0x3b, 0x87, b'\n',
];

const TWINS_EXHAUSTED: &str = "seeds exhausted\n\
    seed 1: lines 1 and 2 have the same hash\n\
    seed 2: lines 1 and 2 have the same hash\n\
    seed 3: lines 1 and 2 have the same hash\n\
    seed 4: lines 1 and 2 have the same hash\n\
    seed 5: lines 1 and 2 have the same hash\n\
    seed 6: lines 1 and 2 have the same hash\n\
    seed 7: lines 1 and 2 have the same hash\n\
    seed 8: lines 1 and 2 have the same hash\n";

const EIGHT_PARTS: &str = "seed 1\nkeys 1\n\
    part 0 keys 0 size 0 buckets 0\npilots\n\
    part 1 keys 0 size 0 buckets 0\npilots\n\
    part 2 keys 0 size 0 buckets 0\npilots\n\
    part 3 keys 0 size 0 buckets 0\npilots\n\
    part 4 keys 0 size 0 buckets 0\npilots\n\
    part 5 keys 1 size 3 buckets 7\npilots 0 0 0 0 0 0 0\n\
    part 6 keys 0 size 0 buckets 0\npilots\n\
    part 7 keys 0 size 0 buckets 0\npilots\n";

#[test]
fn words_and_files_have_their_texts(rt: HostRuntime) -> Result<(), Fail> {
    runs(&rt, &["pilots", "K"], b"\n", 0, ONE_EMPTY_KEY)?;
    runs(&rt, &["pilots", "K", "parts=8"], b"\n", 0, EIGHT_PARTS)?;
    runs(&rt, &["pilots", "K"], b"", 3, "no keys\n")?;
    runs(&rt, &["pilots", "missing"], b"\n", 2, "file fault\n")?;
    runs(
        &rt,
        &["pilots", "K", "limit=3"],
        b"a\nb\nc\nd\n",
        3,
        "too many keys: limit 3\n",
    )?;
    for text in ["a\nb\na\n", "a\nb\na"] {
        runs(
            &rt,
            &["pilots", "K"],
            text.as_bytes(),
            4,
            "repeated key: lines 1 and 3\n",
        )?;
    }
    for (words, text) in [
        (["sort"].as_slice(), "word 0: command\n"),
        (&["--help"], "word 0: command\n"),
        (&[], "word 0: missing\n"),
        (&["pilots"], "word 1: missing\n"),
        (&["pilots", "K", "beta=1"], "word 2: name\n"),
        (&["pilots", "K", "alpha=49"], "word 2: range\n"),
        (&["pilots", "K", "alpha=098"], "word 2: number\n"),
        (
            &["pilots", "K", "alpha=98", "alpha=98"],
            "word 3: repeated\n",
        ),
    ] {
        runs(&rt, words, b"\n", 1, text)?;
    }
    Ok(())
}

#[test]
fn a_line_with_a_byte_too_many_is_refused(rt: HostRuntime) -> Result<(), Fail> {
    let mut keys = vec![in rt.alloc(); b'a'; 65_536]?;
    runs(&rt, &["pilots", "K"], &keys, 3, "line 1 is too long\n")?;
    let _ = keys.pop();
    runs(&rt, &["pilots", "K"], &keys, 0, ONE_EMPTY_KEY)
}

// Seed 1 is stuck with one pilot to try, and seed 2 is not.
#[test]
fn the_second_seed_is_tried(rt: HostRuntime) -> Result<(), Fail> {
    let words = ["pilots", "K", "pilots=1", "seeds=1,2"];
    let text = "seed 2\nkeys 3\npart 0 keys 3 size 5 buckets 21\n\
        pilots 0 0 0 0 0 0 0 0 0 0 0 0 0 0 0 0 0 0 0 0 0\n";
    runs(&rt, &words, b"a\nb\nc\n", 0, text)
}

#[test]
fn lists_have_their_outcomes(rt: HostRuntime) -> Result<(), Fail> {
    let twenty = numbered(&rt, 20)?;
    let many = numbered(&rt, 2000)?;
    for (words, keys, status, text) in [
        (
            ["pilots", "K", "map=uniform"].as_slice(),
            twenty.as_bytes(),
            0,
            UNIFORM,
        ),
        (&["pilots", "K", "map=skewed"], twenty.as_bytes(), 0, SKEWED),
        (
            &["pilots", "K", "map=uniform", "pilots=1", "alpha=100"],
            twenty.as_bytes(),
            5,
            UNIFORM_STUCK,
        ),
        (
            &["pilots", "K", "pilots=1", "alpha=100"],
            many.as_bytes(),
            5,
            SKEWED_STUCK,
        ),
        (&["pilots", "K"], &TWINS, 5, TWINS_EXHAUSTED),
        (&["pilots", "K", "map=flat"], b"\n", 1, "word 2: range\n"),
    ] {
        runs(&rt, words, keys, status, text)?;
    }
    Ok(())
}

#[test]
fn each_call_on_the_files_may_fail(rt: HostRuntime) -> Result<(), Fail> {
    for (call, status, text) in [
        (0, 2, "file fault\n"),
        (1, 2, "file fault\n"),
        (2, 0, ONE_EMPTY_KEY),
    ] {
        let words = texts(&rt, &["pilots", "K"])?;
        let mut files = MemFiles::new(rt.alloc(), only(&rt, call)?, 7);
        files.put("K", b"\n")?;
        let mut out = MemSink::new(rt.alloc(), Vec::new(rt.alloc()));
        assert_eq!(rt;
            run(&rt, rt.alloc(), &words, &mut files, &mut out, &FreeGate),
            status
        );
        assert_eq!(rt; out.bytes(), text.as_bytes());
    }
    Ok(())
}

#[test]
fn a_sink_that_fails_has_half_the_text(rt: HostRuntime) -> Result<(), Fail> {
    for (keys, status, text) in [("\n", 8, ONE_EMPTY_KEY), ("", 3, "no keys\n")] {
        let words = texts(&rt, &["pilots", "K"])?;
        let mut files = MemFiles::new(rt.alloc(), Vec::new(rt.alloc()), 7);
        files.put("K", keys.as_bytes())?;
        let mut out = MemSink::new(rt.alloc(), only(&rt, 0)?);
        assert_eq!(rt;
            run(&rt, rt.alloc(), &words, &mut files, &mut out, &FreeGate),
            status
        );
        assert_eq!(rt; out.bytes(), &text.as_bytes()[..text.len() / 2]);
    }
    Ok(())
}

// A second write would fail.
#[test]
fn each_text_is_one_write(rt: HostRuntime) -> Result<(), Fail> {
    for (words, text) in [(["pilots", "K"], ONE_EMPTY_KEY)] {
        let words = texts(&rt, &words)?;
        let mut files = MemFiles::new(rt.alloc(), Vec::new(rt.alloc()), 7);
        files.put("K", b"\n")?;
        let mut out = MemSink::new(rt.alloc(), only(&rt, 1)?);
        assert_eq!(rt;
            run(&rt, rt.alloc(), &words, &mut files, &mut out, &FreeGate),
            0
        );
        assert_eq!(rt; out.bytes(), text.as_bytes());
    }
    Ok(())
}
