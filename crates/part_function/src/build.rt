// How a partition is built.

ghost use Rattle.std.specs.Prelude.{◌≡◌, ◌<◌, ◌≤◌, length, Ok, IfOk, IfErr};
ghost use Rattle.pthash.specs.declared.TheConstants.{MAX_KEYS, MAX_PILOTS};
ghost use Rattle.pthash.specs.Order.{most_members};
ghost use Rattle.bucket_map.specs.ShapeData.{shape_data};
ghost use Rattle.pilot_search.specs.Outcome.{IsPlaced, IsStuckAt};
ghost use Rattle.settings.specs.Workers.{workers_of};
ghost use Rattle.settings.specs.declared.settings.TheConstants.{MAX_WORKERS};
ghost use Rattle.build_outcome.specs.Attempt.{partition_plan, part_of};
ghost use Rattle.build_outcome.specs.OnePart.{one_part};
ghost use Rattle.part_function.specs.Answers.{IsPartAnswer};

use crate::equal_members::have_equal_members;
use crate::free_positions::free_list;
use crate::numbering::by_number;
use crate::part::Part;
use bucket_map::{NoMemory, Record, Shape, bucket_count, ordered_buckets, table_size};
use pilot_search::{Placed, Plan, Scratch, Stuck, place, place_from, place_rounds};
use settings::How;
use std::alloc::Global;
use std::sync::Wait;
use std::thread::Threads;
use turn_search::{Gate, search_turns};

/// Builds the partition of some records, or answers the bucket that has no pilot: the same however it is searched. Several
/// workers by turns wait for each other, and tell the gate.
pub fn build_part<R: Threads + Wait + Sync, G: Gate>(
    rt: &R,
    alloc: Global,
    records: &[Record],
    shape: Shape,
    seed: u64,
    limit: u64,
    how: How,
    gate: &G,
) -> Result<Result<Part, Stuck>, NoMemory>
    requires few { length records.now ≤ MAX_KEYS }
    requires some_pilot { 1 ≤ limit }
    requires few_pilots { limit ≤ MAX_PILOTS }
    requires some_worker { 1 ≤ workers_of how }
    requires few_workers { workers_of how ≤ MAX_WORKERS }
    ensures { let is_answer = IsPartAnswer (shape_data shape) limit seed records.now in
        IfOk result (λ answer. is_answer answer) }
{
    if records.is_empty() {
        return Ok(Ok(Part::empty(alloc)?));
    }
    let plan = plan_of(alloc, records, shape, seed, limit)?;
    match search(rt, alloc, &plan, how, gate)? {
        Ok(placed) => Ok(Ok(placed_part(alloc, records, shape, plan, placed)?)),
        Err(stuck) => Ok(Err(stuck)),
    }
}

/// The same with a room for the search that is lent, and grows where a bucket needs more.
pub fn build_part_with<R: Threads + Wait + Sync, G: Gate>(
    rt: &R,
    alloc: Global,
    records: &[Record],
    shape: Shape,
    seed: u64,
    limit: u64,
    how: How,
    scratch: &mut Scratch,
    gate: &G,
) -> Result<Result<Part, Stuck>, NoMemory>
    requires few { length records.now ≤ MAX_KEYS }
    requires some_pilot { 1 ≤ limit }
    requires few_pilots { limit ≤ MAX_PILOTS }
    requires some_worker { 1 ≤ workers_of how }
    requires few_workers { workers_of how ≤ MAX_WORKERS }
    ensures { let is_answer = IsPartAnswer (shape_data shape) limit seed records.now in
        IfOk result (λ answer. is_answer answer) }
{
    if records.is_empty() {
        return Ok(Ok(Part::empty(alloc)?));
    }
    let plan = plan_of(alloc, records, shape, seed, limit)?;
    match search_with(rt, alloc, &plan, how, scratch, gate)? {
        Ok(placed) => Ok(Ok(placed_part(alloc, records, shape, plan, placed)?)),
        Err(stuck) => Ok(Err(stuck)),
    }
}

// What the search for some records is given.
fn plan_of(
    alloc: Global,
    records: &[Record],
    shape: Shape,
    seed: u64,
    limit: u64,
) -> Result<Plan, NoMemory>
    requires some { 0 < length records.now }
    requires few { length records.now ≤ MAX_KEYS }
    requires some_pilot { 1 ≤ limit }
    requires few_pilots { limit ≤ MAX_PILOTS }
    ensures { IfOk result (λ plan.
        plan ≡ partition_plan (one_part (shape_data shape) limit) seed records.now) }
{
    let n = records.len() as u64;
    let m = bucket_count(n, shape.c);
    let buckets = ordered_buckets(alloc, records, shape.map, m)?;
    Ok(Plan {
        seed,
        size: table_size(n, shape.alpha),
        limit,
        buckets,
    })
}

// The whole search. One worker searches one bucket after another.
fn search<R: Threads + Wait + Sync, G: Gate>(
    rt: &R,
    alloc: Global,
    plan: &Plan,
    how: How,
    gate: &G,
) -> Result<Result<Placed, Stuck>, NoMemory>
    requires { workers_of how ≤ MAX_WORKERS }
    ensures placed { IfOk result (λ answer. IfOk answer (λ placed. IsPlaced plan.now placed)) }
    ensures stuck { IfOk result (λ answer. IfErr answer (λ stuck. IsStuckAt plan.now stuck)) }
{
    match how {
        How::Rounds(workers) if workers > 1 => place_rounds(rt, alloc, plan, workers),
        How::Turns(workers) if workers > 1 => by_turns(rt, alloc, plan, workers, gate),
        _ => place(alloc, plan),
    }
}

// The same, lent a room.
fn search_with<R: Threads + Wait + Sync, G: Gate>(
    rt: &R,
    alloc: Global,
    plan: &Plan,
    how: How,
    scratch: &mut Scratch,
    gate: &G,
) -> Result<Result<Placed, Stuck>, NoMemory>
    requires { workers_of how ≤ MAX_WORKERS }
    ensures placed { IfOk result (λ answer. IfOk answer (λ placed. IsPlaced plan.now placed)) }
    ensures stuck { IfOk result (λ answer. IfErr answer (λ stuck. IsStuckAt plan.now stuck)) }
{
    match how {
        How::Rounds(workers) if workers > 1 => place_rounds(rt, alloc, plan, workers),
        How::Turns(workers) if workers > 1 => by_turns(rt, alloc, plan, workers, gate),
        _ => place_with(alloc, plan, scratch),
    }
}

// Workers by turns. Where members are equal one worker is stuck at once, and several would try every pilot.
fn by_turns<R: Threads + Wait + Sync, G: Gate>(
    rt: &R,
    alloc: Global,
    plan: &Plan,
    workers: u32,
    gate: &G,
) -> Result<Result<Placed, Stuck>, NoMemory>
    requires some { 1 ≤ workers }
    requires few { workers ≤ MAX_WORKERS }
    ensures placed { IfOk result (λ answer. IfOk answer (λ placed. IsPlaced plan.now placed)) }
    ensures stuck { IfOk result (λ answer. IfErr answer (λ stuck. IsStuckAt plan.now stuck)) }
{
    if have_equal_members(alloc, plan)? {
        return place(alloc, plan);
    }
    search_turns(rt, alloc, plan, workers, gate)
}

// One bucket after another.
fn place_with(
    alloc: Global,
    plan: &Plan,
    scratch: &mut Scratch,
) -> Result<Result<Placed, Stuck>, NoMemory>
    ensures placed { IfOk result (λ answer. IfOk answer (λ placed. IsPlaced plan.now placed)) }
    ensures stuck { IfOk result (λ answer. IfErr answer (λ stuck. IsStuckAt plan.now stuck)) }
{
    scratch.serve(plan)?;
    let placed = Placed::new(alloc, plan)?;
    Ok(place_from(plan, placed, scratch))
}

// The partition of some records, from what the search for them placed. The plan is let go of before the free list grows.
fn placed_part(
    alloc: Global,
    records: &[Record],
    shape: Shape,
    plan: Plan,
    placed: Placed,
) -> Result<Part, NoMemory>
    requires some { 0 < length records.now }
    requires few { length records.now ≤ MAX_KEYS }
    requires some_pilot { 1 ≤ plan.limit }
    requires few_pilots { plan.limit ≤ MAX_PILOTS }
    requires plan { let rules = one_part (shape_data shape) plan.limit in
        plan ≡ partition_plan rules plan.seed records.now }
    requires placed { IsPlaced plan placed }
    ensures { IfOk result (λ part.
        part_of (one_part (shape_data shape) plan.limit) plan.seed records.now ≡ Ok part) }
{
    let n = records.len() as u64;
    let Placed {
        pilots,
        occupied,
        ..
    } = placed;
    let pilots = by_number(alloc, plan, pilots, bucket_count(n, shape.c))?;
    let free = free_list(alloc, &occupied, n)?;
    Ok(Part::new(n, pilots, free))
}
