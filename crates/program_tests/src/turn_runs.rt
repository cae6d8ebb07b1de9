// Builds by several workers: the same index by any number of them, and in a run they test before their turn.
use crate::pilot_runs::texts;
use pth_outside::{MemFiles, MemSink};
use pth_top::run;
use std::fmt::Write;
use std::process::Abort;
use std::sync::Wait;
use std::sync::atomic::{AtomicBool, Ordering};
use std::test::Fail;
use std::thread;
use std::thread::Threads;
use turn_search::{FreeGate, Gate};

// How often a gate looks before it gives up.
const MOST_LOOKS: u64 = 100_000_000;

// The lines k0 to k49 in a file K.
fn fifty<R: AllocGlobal>(rt: &R) -> Result<MemFiles, Fail> {
    let mut text = String::new(rt.alloc());
    for number in 0..50 {
        write!(text, "k{number}\n")?;
    }
    let mut files = MemFiles::new(rt.alloc(), Vec::new(rt.alloc()), 100);
    files.put("K", text.as_bytes())?;
    Ok(files)
}

// Builds the index of the 50 lines as I, with further words.
fn built<R: Abort + AllocGlobal + Threads + Wait + Sync>(
    rt: &R,
    map: &str,
    parts: &str,
    workers: &str,
    search: &str,
) -> Result<MemFiles, Fail> {
    let words = texts(rt, &["build", "K", "I", map, parts, workers, search])?;
    let mut files = fifty(rt)?;
    let mut out = MemSink::new(rt.alloc(), Vec::new(rt.alloc()));
    let status = run(rt, rt.alloc(), &words, &mut files, &mut out, &FreeGate);
    assert_eq!(rt; status, 0, "for {words:?}");
    Ok(files)
}

// Partitions and workers: several of them for each partition, or for each group of partitions, or fewer than there are groups.
const SHARES: [(&str, &str); 8] = [
    ("parts=1", "workers=2"),
    ("parts=1", "workers=64"),
    ("parts=2", "workers=7"),
    ("parts=3", "workers=64"),
    ("parts=8", "workers=1"),
    ("parts=8", "workers=2"),
    ("parts=8", "workers=7"),
    ("parts=8", "workers=64"),
];

#[test]
fn an_index_is_the_same_by_any_workers(rt: HostRuntime) -> Result<(), Fail> {
    for map in ["map=skewed", "map=uniform"] {
        for (parts, workers) in SHARES {
            let alone = built(&rt, map, parts, "workers=1", "search=rounds")?;
            for search in ["search=turns", "search=rounds"] {
                let other = built(&rt, map, parts, workers, search)?;
                assert!(rt; other.get("I").is_some());
                assert_eq!(rt;
                    other.get("I"),
                    alone.get("I"),
                    "for {map} {parts} {workers} {search}"
                );
            }
        }
    }
    Ok(())
}

// Holds the turn of rank 0 until rank 1 has a candidate.
#[derive(Drop)]
struct HoldingGate {
    turn_came: AtomicBool,
    candidate_came: AtomicBool,
    gave_up: AtomicBool,
}

impl Gate for HoldingGate {
    fn candidate(&self, rank: u64, _pilot: u64) {
        if rank == 1 {
            self.candidate_came.store(true, Ordering::SeqCst);
        }
    }

    fn turn(&self, rank: u64) {
        if rank != 0 {
            return;
        }
        self.turn_came.store(true, Ordering::SeqCst);
        for _ in 0..MOST_LOOKS {
            if self.candidate_came.load(Ordering::SeqCst) {
                return;
            }
            thread::yield_now();
        }
        self.gave_up.store(true, Ordering::SeqCst);
    }
}

#[test]
fn a_run_has_workers_that_test_before_their_turn(rt: HostRuntime) -> Result<(), Fail> {
    let words = texts(&rt, &["pilots", "K", "workers=2"])?;
    let mut files = fifty(&rt)?;
    let mut out = MemSink::new(rt.alloc(), Vec::new(rt.alloc()));
    let gate = HoldingGate {
        turn_came: AtomicBool::new(false),
        candidate_came: AtomicBool::new(false),
        gave_up: AtomicBool::new(false),
    };
    assert_eq!(rt;
        run(&rt, rt.alloc(), &words, &mut files, &mut out, &gate),
        0
    );
    assert!(rt; gate.turn_came.load(Ordering::SeqCst));
    assert!(rt; gate.candidate_came.load(Ordering::SeqCst));
    assert!(rt; !gate.gave_up.load(Ordering::SeqCst));
    Ok(())
}
