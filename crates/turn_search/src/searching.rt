// The search of a plan by several workers.

ghost use Rattle.std.specs.Prelude.{◌≡◌, ◌+◌, ◌≤◌, max, All, IfOk, IfErr, OnOk, None, length};
ghost use Rattle.pthash.specs.Order.{most_members};
ghost use Rattle.pilot_search.specs.Outcome.{IsPlacedSoFar, IsPlaced, IsStuckAt};
ghost use Rattle.turn_search.specs.Passes.{IsPassOf};
ghost use Rattle.turn_search.specs.Workers.{IsWorkerOf, IsReady};

use crate::gate::Gate;
use crate::table::{Pass, TurnTable};
use bucket_map::NoMemory;
use pilot_search::{Placed, Plan, Scratch, Stuck, adopt, place_from};
use std::alloc::{AllocError, Global};
use std::sync::Wait;
use std::thread;
use std::thread::Threads;

// What one thread of a search is lent.
#[derive(Drop)]
pub(crate) struct Worker {
    pub(crate) pass: Pass,
    pub(crate) scratch: Scratch,
}

/// The whole search by so many workers, with the answer of `place`.
pub fn search_turns<R: Threads + Wait + Sync, G: Gate>(
    rt: &R,
    alloc: Global,
    plan: &Plan,
    workers: u32,
    gate: &G,
) -> Result<Result<Placed, Stuck>, NoMemory>
    requires some { 1 ≤ workers }
    requires bound { workers ≤ 64 }
    ensures placed { IfOk result (λ answer. IfOk answer (λ placed. IsPlaced plan.now placed)) }
    ensures stuck { IfOk result (λ answer. IfErr answer (λ stuck. IsStuckAt plan.now stuck)) }
{
    let (table, first) = TurnTable::new(alloc, plan)?;
    let mut crew = crew_of(alloc, &table, first, workers)?;
    let placed = Placed::new(alloc, plan)?;
    run_all(rt, &table, crew.as_mut_slice(), gate);
    match crew.pop() {
        Some(worker) => Ok(finish(plan, table, worker, placed)),
        None => unreachable!(),
    }
}

// So many workers, the last of them with the first pass.
fn crew_of(
    alloc: Global,
    table: &TurnTable<'_>,
    first: Pass,
    workers: u32,
) -> Result<Vec<Worker>, NoMemory>
    requires first { IsPassOf table.now first }
    requires no_claim { first.view.claim ≡ None }
    ensures ready { IfOk result (λ crew. All (IsReady table.now) crew.items) }
    ensures some { IfOk result (λ crew. 1 ≤ length crew.items) }
    ensures len { IfOk result (λ crew. length crew.items ≡ max workers 1) }
{
    let mut first = first;
    let mut crew = Vec::with_capacity(alloc, workers as usize)?;
    for _ in 1..workers {
        let pass = table.split(&mut first);
        join_crew(alloc, table, pass, &mut crew)?;
    }
    join_crew(alloc, table, first, &mut crew)?;
    Ok(crew)
}

// One worker more, with this pass.
fn join_crew(
    alloc: Global,
    table: &TurnTable<'_>,
    pass: Pass,
    crew: &mut Vec<Worker>,
) -> Result<(), NoMemory>
    requires pass { IsPassOf table.now pass }
    requires no_claim { pass.view.claim ≡ None }
    requires ready { All (IsReady table.now) crew.old.items }
    ensures ready { OnOk result (All (IsReady table.now) crew.new.items) }
    ensures some { OnOk result (1 ≤ length crew.new.items) }
    ensures len { OnOk result (length crew.new.items ≡ length crew.old.items + 1) }
{
    let scratch = Scratch::new(alloc, table.plan)?;
    match crew.push(Worker { pass, scratch }) {
        Ok(()) => Ok(()),
        Err(refused) => Err(AllocError::from(refused).into()),
    }
}

// All workers work, each in a thread of its own where one can be started.
fn run_all<R: Threads + Wait + Sync, G: Gate>(
    rt: &R,
    table: &TurnTable<'_>,
    crew: &mut [Worker],
    gate: &G,
)
    requires ready { All (IsReady table.now) crew.old }
    requires some { 1 ≤ length crew.old }
    ensures kept { All (IsWorkerOf table.now) crew.new }
    ensures len { length crew.new ≡ length crew.old }
{
    let threads = crew.len();
    thread::for_each_mut(
        rt,
        crew,
        threads,
        &move |_, worker: &mut Worker|
            requires { IsReady table.now worker.now }
            ensures { IsWorkerOf table.entry.now worker.exit.now }
        { run_one(rt, table, worker, gate) },
    );
}

// One worker works until there is nothing left to do for it.
fn run_one<R: Wait, G: Gate>(rt: &R, table: &TurnTable<'_>, worker: &mut Worker, gate: &G)
    requires { IsReady table.now worker.old }
    ensures { IsWorkerOf table.now worker.new }
{
    table.work(rt, &mut worker.pass, &mut worker.scratch, gate);
}

// Closes the table, takes up its pilots, and places the buckets that are left.
fn finish(
    plan: &Plan,
    table: TurnTable<'_>,
    worker: Worker,
    placed: Placed,
) -> Result<Placed, Stuck>
    requires plan { table.plan ≡ plan.now }
    requires worker { IsWorkerOf table worker }
    requires new { placed.done ≡ 0 }
    requires so_far { IsPlacedSoFar plan.now placed }
    ensures placed { IfOk result (λ placed. IsPlaced plan.now placed) }
    ensures stuck { IfErr result (λ stuck. IsStuckAt plan.now stuck) }
{
    let Worker { pass, mut scratch } = worker;
    let ended = table.close(pass);
    if let Some(rank) = ended.stuck {
        let bucket = plan.bucket(rank);
        return Err(Stuck { rank, bucket });
    }
    let known = adopt(plan, placed, &ended.pilots, &mut scratch);
    place_from(plan, known, &mut scratch)
}
