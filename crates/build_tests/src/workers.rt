// Searches by several workers, and gates that hold them back or count what they do.

ghost use Rattle.std.specs.Prelude.{◌<◌, ◌≤◌, length};
ghost use Rattle.pthash.specs.declared.TheConstants.{MAX_KEYS};

use crate::turn_tables::two_buckets;
use bucket_map::{Map, NoMemory, Record, bucket_count, ordered_buckets, table_size};
use murmur64::hash_pair;
use pilot_search::{Placed, Plan, Stuck, place};
use std::alloc::Global;
use std::process::Abort;
use std::sync::atomic::{AtomicBool, AtomicU64, Ordering};
use std::test::Fail;
use std::thread;
use turn_search::{FreeGate, Gate, search_turns};

// How often a gate looks before it gives up.
const MOST_LOOKS: u64 = 100_000_000;

#[test]
fn workers_place_what_one_thread_places(rt: HostRuntime) -> Result<(), Fail> {
    let plan = two_buckets(rt.alloc(), 8)?;
    for workers in [1, 2, 7] {
        match search_turns(&rt, rt.alloc(), &plan, workers, &FreeGate)? {
            Ok(placed) => assert_eq!(rt; placed.pilots.as_slice(), [0, 0].as_slice()),
            Err(_) => panic!(rt; "{workers} workers are stuck"),
        }
    }
    Ok(())
}

#[test]
fn workers_are_stuck_where_one_thread_is(rt: HostRuntime) -> Result<(), Fail> {
    let plan = two_buckets(rt.alloc(), 6)?;
    for workers in [1, 2, 7] {
        match search_turns(&rt, rt.alloc(), &plan, workers, &FreeGate)? {
            Ok(_) => panic!(rt; "{workers} workers are not stuck"),
            Err(stuck) => assert_eq!(rt; stuck, Stuck { rank: 1, bucket: 1 }),
        }
    }
    Ok(())
}

// Holds the turn of rank 0 until pilot 0 is the candidate of rank 1.
#[derive(Drop)]
struct HoldingGate {
    turn_came: AtomicBool,
    candidate_came: AtomicBool,
    gave_up: AtomicBool,
}

impl Gate for HoldingGate {
    fn candidate(&self, rank: u64, pilot: u64) {
        if rank == 1 && pilot == 0 {
            self.candidate_came.store(true, Ordering::SeqCst);
        }
    }

    fn turn(&self, rank: u64) {
        if rank != 0 {
            return;
        }
        self.turn_came.store(true, Ordering::SeqCst);
        for _ in 0..MOST_LOOKS {
            if self.candidate_came.load(Ordering::SeqCst) {
                return;
            }
            thread::yield_now();
        }
        self.gave_up.store(true, Ordering::SeqCst);
    }
}

#[test]
fn a_worker_tests_before_its_turn(rt: HostRuntime) -> Result<(), Fail> {
    let plan = two_buckets(rt.alloc(), 8)?;
    let gate = HoldingGate {
        turn_came: AtomicBool::new(false),
        candidate_came: AtomicBool::new(false),
        gave_up: AtomicBool::new(false),
    };
    let answer = search_turns(&rt, rt.alloc(), &plan, 2, &gate)?;
    assert!(rt; answer.is_ok());
    assert!(rt; gate.turn_came.load(Ordering::SeqCst));
    assert!(rt; gate.candidate_came.load(Ordering::SeqCst));
    assert!(rt; !gate.gave_up.load(Ordering::SeqCst));
    Ok(())
}

// Counts the turns and the candidates of each rank, and keeps the pilot that it was told of last.
#[derive(Drop)]
struct CountingGate {
    turns: AtomicU64,
    out_of_order: AtomicBool,
    candidates: Vec<AtomicU64>,
    pilots: Vec<AtomicU64>,
}

impl CountingGate {
    fn new(alloc: Global, ranks: u64) -> Result<Self, Fail> {
        let mut candidates = Vec::new(alloc);
        let mut pilots = Vec::new(alloc);
        for _ in 0..ranks {
            candidates.push(AtomicU64::new(0))?;
            pilots.push(AtomicU64::new(u64::MAX))?;
        }
        Ok(Self {
            turns: AtomicU64::new(0),
            out_of_order: AtomicBool::new(false),
            candidates,
            pilots,
        })
    }
}

impl Gate for CountingGate {
    fn candidate(&self, rank: u64, pilot: u64) {
        match self.candidates.get(rank as usize) {
            Some(count) => {
                count.fetch_add(1, Ordering::SeqCst);
            }
            None => self.out_of_order.store(true, Ordering::SeqCst),
        }
        if let Some(told) = self.pilots.get(rank as usize) {
            told.store(pilot, Ordering::SeqCst);
        }
    }

    fn turn(&self, rank: u64) {
        if self.turns.fetch_add(1, Ordering::SeqCst) != rank {
            self.out_of_order.store(true, Ordering::SeqCst);
        }
    }
}

// The records of the lines k0 to k49 at a seed.
fn records_of_lines(alloc: Global, seed: u64) -> Result<Vec<Record>, Fail> {
    let mut records = Vec::new(alloc);
    for ordinal in 0..50 {
        let line = format!(in alloc; "k{ordinal}")?;
        let pair = hash_pair(line.as_bytes(), seed);
        records.push(Record {
            a: pair.a,
            b: pair.b,
            ordinal,
        })?;
    }
    Ok(records)
}

// What is searched for records with the settings that stand where none are given.
fn plan_of(alloc: Global, records: &[Record], seed: u64) -> Result<Plan, NoMemory>
    requires some { 0 < length records.now }
    requires few { length records.now ≤ MAX_KEYS }
{
    let n = records.len() as u64;
    Ok(Plan {
        seed,
        size: table_size(n, 98),
        limit: 16_777_216,
        buckets: ordered_buckets(alloc, records, Map::Skewed, bucket_count(n, 700))?,
    })
}

// The plan of these lines at the first seed at which it is placed, and its pilots.
fn first_plan_placed(rt: &impl Abort, alloc: Global) -> Result<(Plan, Placed), Fail> {
    for seed in 1..9 {
        let records = records_of_lines(alloc, seed)?;
        assert!(rt; records.len() == 50);
        let plan = plan_of(alloc, &records, seed)?;
        if let Ok(placed) = place(alloc, &plan)? {
            return Ok((plan, placed));
        }
    }
    panic!(rt; "no seed succeeds")
}

// Each rank has reported a candidate and, in order, a turn.
fn assert_counted(rt: &impl Abort, gate: &CountingGate, ranks: u64) {
    assert_eq!(rt; gate.turns.load(Ordering::SeqCst), ranks);
    assert!(rt; !gate.out_of_order.load(Ordering::SeqCst));
    for count in &gate.candidates {
        assert_eq!(rt; count.load(Ordering::SeqCst), 1);
    }
}

// A candidate is no greater than its rank's pilot, and that pilot itself where nobody else searches.
fn assert_told(rt: &impl Abort, gate: &CountingGate, placed: &Placed, workers: u32) {
    for (told, pilot) in gate.pilots.iter().zip(placed.pilots.as_slice()) {
        let told = told.load(Ordering::SeqCst);
        assert!(rt; told <= *pilot);
        assert!(rt; workers > 1 || told == *pilot);
    }
}

#[test]
fn each_rank_has_its_candidate_and_its_turn(rt: HostRuntime) -> Result<(), Fail> {
    let (plan, expected) = first_plan_placed(&rt, rt.alloc())?;
    for workers in [1, 2, 7] {
        let gate = CountingGate::new(rt.alloc(), plan.ranks())?;
        match search_turns(&rt, rt.alloc(), &plan, workers, &gate)? {
            Ok(placed) => {
                assert_eq!(rt; placed.pilots.as_slice(), expected.pilots.as_slice());
            }
            Err(_) => panic!(rt; "{workers} workers are stuck"),
        }
        assert_counted(&rt, &gate, plan.ranks());
        assert_told(&rt, &gate, &expected, workers);
    }
    Ok(())
}
