// A search in rounds: runs of buckets are tested at the same time, and then placed in order.

ghost use Rattle.std.specs.Prelude.{◌≡◌, ◌<◌, ◌≤◌, ◌^◌, All, length, OnOk, IfOk, IfErr};
ghost use Rattle.pthash.specs.Order.{most_members};
ghost use Rattle.pthash.specs.Search.{SearchPlan};
ghost use Rattle.pilot_search.specs.Table.{Table};
ghost use Rattle.pilot_search.specs.Outcome.{IsSearchedTo, IsPlacedSoFar, IsPlaced, IsStuckAt};
ghost use Rattle.pilot_search.specs.Rounds.{HasNoLower, IsTested};

use crate::occupancy::Occupancy;
use crate::placing::{Placed, Stuck, place, place_bucket, place_ranks};
use crate::plan::Plan;
use crate::scratch::Scratch;
use crate::shares::{Share, shares_of};
use bucket_map::NoMemory;
use divisor::Divisor;
use std::alloc::Global;
use std::thread;
use std::thread::Threads;

// A run has at most as many buckets as make so many rounds of a large plan.
const ROUNDS: u64 = 64;

// So many buckets are placed alone before it is asked again, and a run of a small plan may have as many.
const FEW: u64 = 64;

// A thread is worth its start where so many pilots are likely to be tried in its run.
const WORTH: u64 = 65_536;

// Runs are so long that about so many pilots are tried in each, so that few buckets are tested in a table that has changed.
const WORK: u64 = 131_072;

/// The whole search in rounds of so many threads, with the answer of `place`.
pub fn place_rounds<R: Threads + Sync>(
    rt: &R,
    alloc: Global,
    plan: &Plan,
    workers: u32,
) -> Result<Result<Placed, Stuck>, NoMemory>
    requires some { 1 ≤ workers }
    requires bound { workers ≤ 64 }
    ensures placed { IfOk result (λ answer. IfOk answer (λ placed. IsPlaced plan.now placed)) }
    ensures stuck { IfOk result (λ answer. IfErr answer (λ stuck. IsStuckAt plan.now stuck)) }
{
    if workers == 1 {
        return place(alloc, plan);
    }
    let most = plan.ranks() / (ROUNDS * u64::from(workers)) + FEW;
    let mut shares = shares_of(alloc, plan, most, workers)?;
    let mut scratch = Scratch::new(alloc, plan)?;
    let placed = Placed::new(alloc, plan)?;
    Ok(place_all(rt, plan, placed, &mut shares, most, &mut scratch))
}

fn place_all<R: Threads + Sync>(
    rt: &R,
    plan: &Plan,
    placed: Placed,
    shares: &mut [Share],
    most: u64,
    scratch: &mut Scratch,
) -> Result<Placed, Stuck>
    requires new { placed.done ≡ 0 }
    requires so_far { IsPlacedSoFar plan.now placed }
    requires shares { 1 ≤ length shares.old }
    requires bound { length shares.old ≤ 64 }
    requires most { 1 ≤ most }
    requires most_bound { most ≤ 2 ^ 32 }
    requires room { most_members plan.now.buckets ≤ scratch.old.members }
    ensures placed { IfOk result (λ placed. IsPlaced plan.now placed) }
    ensures stuck { IfErr result (λ stuck. IsStuckAt plan.now stuck) }
{
    let mut placed = placed;
    place_in_rounds(
        rt,
        plan,
        shares,
        most,
        placed.pilots.as_mut_slice(),
        &mut placed.occupied,
        scratch,
    )?;
    placed.done = plan.ranks();
    Ok(placed)
}

// Places the next buckets time after time, until none is left.
fn place_in_rounds<R: Threads + Sync>(
    rt: &R,
    plan: &Plan,
    shares: &mut [Share],
    most: u64,
    pilots: &mut [u64],
    occupied: &mut Occupancy,
    scratch: &mut Scratch,
) -> Result<(), Stuck>
    requires so_far { IsSearchedTo plan.now 0 pilots.old occupied.old }
    requires shares { 1 ≤ length shares.old }
    requires bound { length shares.old ≤ 64 }
    requires most { 1 ≤ most }
    requires most_bound { most ≤ 2 ^ 32 }
    requires room { most_members plan.now.buckets ≤ scratch.old.members }
    ensures placed { let ranks = length plan.now.buckets in
        OnOk result (IsSearchedTo plan.now ranks pilots.new occupied.new) }
    ensures stuck { IfErr result (λ stuck. IsStuckAt plan.now stuck) }
{
    let size = Divisor::new(plan.size());
    let mut start = 0;
    let mut run = 0;
    while start < plan.ranks() {
        let end = place_next(
            rt, plan, start, run, most, shares, &size, pilots, occupied, scratch,
        )?;
        run = next_run(&pilots[start as usize..end as usize], most);
        start = end;
    }
    Ok(())
}

// How long the runs of the next round are, by the pilots of the buckets before it; 0 where no thread is worth its start.
fn next_run(pilots: &[u64], most: u64) -> u64
    requires { 1 ≤ most }
    ensures { result ≤ most }
{
    let mut sum = 0u64;
    for pilot in pilots {
        sum = sum.saturating_add(*pilot);
    }
    let mean = sum / (pilots.len() as u64).max(1);
    if mean < WORTH / most {
        0
    } else {
        most.min(WORK / mean.saturating_add(1) + 1)
    }
}

// Places some of the next buckets, by a round where runs are not 0 long and else alone, and gives the rank of the next one.
fn place_next<R: Threads + Sync>(
    rt: &R,
    plan: &Plan,
    start: u64,
    run: u64,
    most: u64,
    shares: &mut [Share],
    size: &Divisor,
    pilots: &mut [u64],
    occupied: &mut Occupancy,
    scratch: &mut Scratch,
) -> Result<u64, Stuck>
    requires start { start < length plan.now.buckets }
    requires run { run ≤ most }
    requires most { 1 ≤ most }
    requires most_bound { most ≤ 2 ^ 32 }
    requires shares { 1 ≤ length shares.old }
    requires bound { length shares.old ≤ 64 }
    requires so_far { IsSearchedTo plan.now start pilots.old occupied.old }
    requires divisor { size.now ≡ plan.now.size }
    requires room { most_members plan.now.buckets ≤ scratch.old.members }
    ensures placed { IfOk result (λ end. IsSearchedTo plan.now end pilots.new occupied.new) }
    ensures further { IfOk result (λ end. start < end) }
    ensures within { IfOk result (λ end. end ≤ length plan.now.buckets) }
    ensures stuck { IfErr result (λ stuck. IsStuckAt plan.now stuck) }
    ensures shares { length shares.new ≡ length shares.old }
    ensures room { scratch.new.members ≡ scratch.old.members }
{
    if run == 0 {
        let end = plan.ranks().min(start + FEW);
        place_ranks(plan, start, end, size, pilots, occupied, scratch)?;
        return Ok(end);
    }
    let end = plan.ranks().min(start + run * shares.len() as u64);
    test_shares(rt, plan, occupied, shares, start, run);
    place_round(
        plan, start, end, run, shares, size, pilots, occupied, scratch,
    )?;
    Ok(end)
}

// Tests the runs of all shares at the same time.
fn test_shares<R: Threads + Sync>(
    rt: &R,
    plan: &Plan,
    occupied: &Occupancy,
    shares: &mut [Share],
    start: u64,
    run: u64,
)
    requires { 1 ≤ length shares.old }
    ensures tested { All (IsTested plan.now occupied.now) shares.new }
    ensures shares { length shares.new ≡ length shares.old }
{
    let mut next = start;
    for share in shares.iter_mut() {
        share.start = next;
        next = next.saturating_add(run);
    }
    let threads = shares.len();
    thread::for_each_mut(
        rt,
        shares,
        threads,
        &|_, share: &mut Share| share.test(plan, occupied, run),
    );
}

// Gives each bucket of a round its pilot, sought from where it was tested to.
fn place_round(
    plan: &Plan,
    start: u64,
    end: u64,
    run: u64,
    shares: &[Share],
    size: &Divisor,
    pilots: &mut [u64],
    occupied: &mut Occupancy,
    scratch: &mut Scratch,
) -> Result<(), Stuck>
    requires start { start ≤ end }
    requires end { end ≤ length plan.now.buckets }
    requires run { 1 ≤ run }
    requires tested { All (IsTested plan.now occupied.old) shares.now }
    requires so_far { IsSearchedTo plan.now start pilots.old occupied.old }
    requires divisor { size.now ≡ plan.now.size }
    requires room { most_members plan.now.buckets ≤ scratch.old.members }
    ensures placed { OnOk result (IsSearchedTo plan.now end pilots.new occupied.new) }
    ensures stuck { IfErr result (λ stuck. IsStuckAt plan.now stuck) }
    ensures room { scratch.new.members ≡ scratch.old.members }
{
    for rank in start..end {
        let first = tested_to(shares, (rank - start) / run, rank);
        place_bucket(plan, rank, first, size, pilots, occupied, scratch)?;
    }
    Ok(())
}

// Up to where the share at a place has tested a bucket.
fn tested_to(shares: &[Share], place: u64, rank: u64) -> u64
    ensures { (plan : SearchPlan) (table : Table) → All (IsTested plan table) shares.now →
        rank < length plan.buckets → HasNoLower plan table rank result }
{
    if place < shares.len() as u64 {
        shares[place as usize].first(rank)
    } else {
        0
    }
}
