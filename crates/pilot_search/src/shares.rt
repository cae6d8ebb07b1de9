// What the threads of a round are lent, and how each tests a run of buckets.

ghost use Rattle.std.specs.Prelude.{◌≡◌, ◌<◌, ◌≤◌, ◌+◌, ◌^◌, length, IfOk};
ghost use Rattle.pthash.specs.Search.{SearchPlan};
ghost use Rattle.pilot_search.specs.Table.{Table};
ghost use Rattle.pilot_search.specs.Rounds.{HasNoLower, HaveNoLower, IsTested};

use crate::occupancy::Occupancy;
use crate::plan::Plan;
use crate::scratch::Scratch;
use bucket_map::NoMemory;
use divisor::Divisor;
use std::alloc::{AllocError, Global};

// The first rank of a thread's run, and for each rank of it where the search goes on.
#[derive(Drop)]
pub(crate) struct Share {
    pub(crate) start: u64,
    pub(crate) firsts: Vec<u64>,
    pub(crate) scratch: Scratch,
}

impl Share {
    fn new(alloc: Global, plan: &Plan, most: u64) -> Result<Self, NoMemory>
        requires { most ≤ 2 ^ 32 }
    {
        let firsts = vec![in alloc; 0; most as usize]?;
        let scratch = Scratch::new(alloc, plan)?;
        Ok(Self {
            start: 0,
            firsts,
            scratch,
        })
    }

    // Tests so many buckets from its first rank on.
    pub(crate) fn test(&mut self, plan: &Plan, occupied: &Occupancy, run: u64)
        ensures { IsTested plan.now occupied.now self.new }
    {
        let size = Divisor::new(occupied.size());
        let start = self.start;
        test_run(
            plan,
            occupied,
            &size,
            start,
            run,
            self.firsts.as_mut_slice(),
            &mut self.scratch,
        );
    }

    // Where the search for the pilot of a bucket goes on.
    pub(crate) fn first(&self, rank: u64) -> u64
        ensures { (plan : SearchPlan) (table : Table) → IsTested plan table self.now →
            rank < length plan.buckets → HasNoLower plan table rank result }
    {
        if rank < self.start {
            return 0;
        }
        let place = rank - self.start;
        if place < self.firsts.len() as u64 {
            self.firsts[place as usize]
        } else {
            0
        }
    }
}

// Writes for each bucket of a run where its search goes on, and 0 past the run.
fn test_run(
    plan: &Plan,
    occupied: &Occupancy,
    size: &Divisor,
    start: u64,
    run: u64,
    firsts: &mut [u64],
    scratch: &mut Scratch,
)
    requires { size.now ≡ occupied.now.size }
    ensures { HaveNoLower plan.now occupied.now start firsts.new }
{
    for i in 0..firsts.len() {
        firsts[i] = first_fitting(plan, occupied, size, start, run, i as u64, scratch);
    }
}

// The first pilot that fits the bucket at a place of a run, or the limit; 0 past the run, and where the bucket can't be tested.
fn first_fitting(
    plan: &Plan,
    occupied: &Occupancy,
    size: &Divisor,
    start: u64,
    run: u64,
    place: u64,
    scratch: &mut Scratch,
) -> u64
    requires { size.now ≡ occupied.now.size }
    ensures { start + place < length plan.now.buckets →
        HasNoLower plan.now occupied.now (start + place) result }
{
    if place >= run {
        return 0;
    }
    let ranks = plan.ranks();
    if start >= ranks {
        return 0;
    }
    if place >= ranks - start {
        return 0;
    }
    let rank = start + place;
    let members = plan.members(rank);
    if members.len() as u64 > scratch.members() {
        return 0;
    }
    match scratch.find_pilot(members, 0, plan.seed(), plan.limit(), size, occupied) {
        Some(pilot) => pilot,
        None => plan.limit(),
    }
}

// A share for each worker, with runs of at most so many buckets.
pub(crate) fn shares_of(
    alloc: Global,
    plan: &Plan,
    most: u64,
    workers: u32,
) -> Result<Vec<Share>, NoMemory>
    requires most { most ≤ 2 ^ 32 }
    requires some { 1 ≤ workers }
    ensures some { IfOk result (λ shares. 1 ≤ length shares.items) }
    ensures bound { IfOk result (λ shares. length shares.items ≤ workers) }
{
    let mut shares = Vec::with_capacity(alloc, workers as usize)?;
    for _ in 0..workers {
        let share = Share::new(alloc, plan, most)?;
        match shares.push(share) {
            Ok(()) => {}
            Err(refused) => return Err(AllocError::from(refused).into()),
        }
    }
    Ok(shares)
}
