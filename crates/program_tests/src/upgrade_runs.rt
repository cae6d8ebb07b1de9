// Upgrades of indexes as whole runs.
use crate::check_runs::{DIFFER, UNMARKED};
use crate::index_runs::{INDEX, bytes_of, files_of, runs};
use crate::pilot_runs::{only, texts};
use pth_outside::MemSink;
use pth_top::run;
use std::test::Fail;
use turn_search::FreeGate;

const UPGRADED: &str = "upgraded 1 keys bytes 160\n";

const ALREADY: &str = "already version 2\n";

const WORDS: [&str; 3] = ["upgrade", "I", "K"];

#[test]
fn an_index_gets_the_mark_of_its_keys_once(rt: HostRuntime) -> Result<(), Fail> {
    let marked = bytes_of(&rt, &INDEX)?;
    let unmarked = bytes_of(&rt, &UNMARKED)?;
    let mut files = files_of(&rt, Vec::new(rt.alloc()), b"\n", &unmarked, b"")?;
    files.put("I.tmp", b"unfinished")?;
    runs(&rt, &WORDS, &mut files, 0, UPGRADED.as_bytes(), &marked)?;
    assert_eq!(&rt; files.get("I.tmp"), None);
    assert!(&rt; files.created("I.tmp"));
    assert!(&rt; !files.created("I"));
    files.put("I.tmp", b"unfinished")?;
    runs(&rt, &WORDS, &mut files, 0, ALREADY.as_bytes(), &marked)?;
    assert_eq!(&rt; files.get("I.tmp"), Some(b"unfinished".as_slice()));
    Ok(())
}

// Another line with the only value is the key from then on.
#[test]
fn an_index_gets_the_mark_of_the_lines(rt: HostRuntime) -> Result<(), Fail> {
    let unmarked = bytes_of(&rt, &UNMARKED)?;
    let mut of_x = INDEX;
    of_x[6] = 0x9a5d_b2cd_2c1f_d6ce;
    of_x[7] = 0x3fc2_3ca7_2b33_222a;
    of_x[19] = 16_550_041_153_391_589_294;
    let marked = bytes_of(&rt, &of_x)?;
    let mut files = files_of(&rt, Vec::new(rt.alloc()), b"x\n", &unmarked, b"")?;
    runs(&rt, &WORDS, &mut files, 0, UPGRADED.as_bytes(), &marked)
}

#[test]
fn a_refused_upgrade_changes_no_file(rt: HostRuntime) -> Result<(), Fail> {
    let marked = bytes_of(&rt, &INDEX)?;
    let unmarked = bytes_of(&rt, &UNMARKED)?;
    let refused = "index refused: short\n";
    for (words, index, lines, status, text) in [
        (
            WORDS.as_slice(),
            marked.as_slice(),
            b"".as_slice(),
            7,
            "index has 1 keys, list has 0\n",
        ),
        (&WORDS, &unmarked, b"", 7, "index has 1 keys, list has 0\n"),
        (&WORDS, &marked, b"x\n", 7, DIFFER),
        (&WORDS, &unmarked, b"\n\n", 7, "line 2 repeats line 1\n"),
        (&WORDS, b"old", b"\n", 6, refused),
        (&["upgrade", "I", "missing"], b"old", b"\n", 6, refused),
        (
            &["upgrade", "I", "missing"],
            &unmarked,
            b"\n",
            2,
            "file fault\n",
        ),
        (
            &["upgrade", "I", "I.tmp"],
            &unmarked,
            b"\n",
            1,
            "word 2: same name\n",
        ),
    ] {
        let mut files = files_of(&rt, Vec::new(rt.alloc()), lines, index, b"")?;
        files.put("I.tmp", b"unfinished")?;
        runs(&rt, words, &mut files, status, text.as_bytes(), index)?;
        assert_eq!(&rt; files.get("I.tmp"), Some(b"unfinished".as_slice()));
    }
    Ok(())
}

#[test]
fn each_call_of_an_upgrade_may_fail(rt: HostRuntime) -> Result<(), Fail> {
    let marked = bytes_of(&rt, &INDEX)?;
    let unmarked = bytes_of(&rt, &UNMARKED)?;
    // Three reads of the index, two of the lines, one file that is made, one piece and one that is put in place.
    for call in 0..8 {
        let mut files = files_of(&rt, only(&rt, call)?, b"\n", &unmarked, b"")?;
        runs(&rt, &WORDS, &mut files, 2, b"file fault\n", &unmarked)?;
    }
    let mut files = files_of(&rt, only(&rt, 8)?, b"\n", &unmarked, b"")?;
    runs(&rt, &WORDS, &mut files, 0, UPGRADED.as_bytes(), &marked)
}

#[test]
fn a_sink_that_fails_leaves_the_marked_index(rt: HostRuntime) -> Result<(), Fail> {
    let marked = bytes_of(&rt, &INDEX)?;
    let unmarked = bytes_of(&rt, &UNMARKED)?;
    let words = texts(&rt, &WORDS)?;
    let mut files = files_of(&rt, Vec::new(rt.alloc()), b"\n", &unmarked, b"")?;
    let mut out = MemSink::new(rt.alloc(), only(&rt, 0)?);
    assert_eq!(&rt;
        run(&rt, rt.alloc(), &words, &mut files, &mut out, &FreeGate),
        8
    );
    assert_eq!(&rt; out.bytes(), &UPGRADED.as_bytes()[..UPGRADED.len() / 2]);
    assert_eq!(&rt; files.get("I"), Some(marked.as_slice()));
    Ok(())
}
