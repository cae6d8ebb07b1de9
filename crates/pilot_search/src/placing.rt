// One bucket after another gets its pilot.

ghost use Rattle.std.specs.Prelude.{◌≡◌, ◌+◌, ◌<◌, ◌≤◌, length, OnOk, IfOk, IfErr};
ghost use Rattle.std.specs.FinSet as set;
ghost use Rattle.pthash.specs.Order.{bucket_at, most_members};
ghost use Rattle.pthash.specs.Search.{pilot_fits};
ghost use Rattle.pthash.specs.Least.{FailsBelow};
ghost use Rattle.pilot_search.specs.Outcome.{IsSearchedTo, IsPlacedSoFar, IsPlaced, IsStuckAt};

use crate::occupancy::Occupancy;
use crate::plan::Plan;
use crate::scratch::Scratch;
use bucket_map::NoMemory;
use divisor::Divisor;
use std::alloc::Global;

/// What a search has placed: the pilots by rank, of which the first `done` are found, and the positions taken.
#[derive(Drop)]
pub struct Placed {
    pub pilots: Vec<u64>,
    pub done: u64,
    pub occupied: Occupancy,
}

/// The bucket that no pilot below the limit fits: its rank and its number.
#[derive(Clone, Copy, Debug, PartialEq, Eq)]
pub struct Stuck {
    pub rank: u64,
    pub bucket: u64,
}

impl Placed {
    /// The start of a search: no pilot found and no position taken.
    pub fn new(alloc: Global, plan: &Plan) -> Result<Self, NoMemory>
        ensures done { IfOk result (λ placed. placed.done ≡ 0) }
        ensures placed { IfOk result (λ placed. IsPlacedSoFar plan.now placed) }
    {
        let pilots = vec![in alloc; 0; plan.ranks() as usize]?;
        let occupied = Occupancy::new(alloc, plan.size())?;
        Ok(Self {
            pilots,
            done: 0,
            occupied,
        })
    }
}

// Gives the bucket at a rank its pilot, sought from `first` on.
pub(crate) fn place_bucket(
    plan: &Plan,
    rank: u64,
    first: u64,
    size: &Divisor,
    pilots: &mut [u64],
    occupied: &mut Occupancy,
    scratch: &mut Scratch,
) -> Result<(), Stuck>
    requires rank { rank < length plan.now.buckets }
    requires room { most_members plan.now.buckets ≤ scratch.old.members }
    requires so_far { IsSearchedTo plan.now rank pilots.old occupied.old }
    requires divisor { size.now ≡ plan.now.size }
    requires no_lower { let members = (bucket_at plan.now.buckets rank).members in
        let fit = pilot_fits plan.now.seed size.now (set.contains occupied.old.taken) in
        FailsBelow (fit members) first }
    ensures placed { OnOk result (IsSearchedTo plan.now (rank + 1) pilots.new occupied.new) }
    ensures stuck { IfErr result (λ stuck. IsStuckAt plan.now stuck) }
    ensures room { scratch.new.members ≡ scratch.old.members }
{
    let members = plan.members(rank);
    match scratch.find_pilot(members, first, plan.seed(), plan.limit(), size, occupied) {
        Some(pilot) => {
            pilots[rank as usize] = pilot;
            occupied.take_all(scratch.positions());
            Ok(())
        }
        None => {
            let bucket = plan.bucket(rank);
            Err(Stuck { rank, bucket })
        }
    }
}

// Places the buckets of these ranks, one after another.
pub(crate) fn place_ranks(
    plan: &Plan,
    start: u64,
    end: u64,
    size: &Divisor,
    pilots: &mut [u64],
    occupied: &mut Occupancy,
    scratch: &mut Scratch,
) -> Result<(), Stuck>
    requires start { start ≤ end }
    requires end { end ≤ length plan.now.buckets }
    requires so_far { IsSearchedTo plan.now start pilots.old occupied.old }
    requires divisor { size.now ≡ plan.now.size }
    requires room { most_members plan.now.buckets ≤ scratch.old.members }
    ensures placed { OnOk result (IsSearchedTo plan.now end pilots.new occupied.new) }
    ensures stuck { IfErr result (λ stuck. IsStuckAt plan.now stuck) }
    ensures room { scratch.new.members ≡ scratch.old.members }
{
    for rank in start..end {
        place_bucket(plan, rank, 0, size, pilots, occupied, scratch)?;
    }
    Ok(())
}

/// Goes on with a search, to its end or to the bucket at which it is stuck.
pub fn place_from(plan: &Plan, placed: Placed, scratch: &mut Scratch) -> Result<Placed, Stuck>
    requires so_far { IsPlacedSoFar plan.now placed }
    requires room { most_members plan.now.buckets ≤ scratch.old.members }
    ensures placed { IfOk result (λ placed. IsPlaced plan.now placed) }
    ensures stuck { IfErr result (λ stuck. IsStuckAt plan.now stuck) }
    ensures room { scratch.new.members ≡ scratch.old.members }
{
    let mut placed = placed;
    let size = Divisor::new(plan.size());
    place_ranks(
        plan,
        placed.done,
        plan.ranks(),
        &size,
        &mut placed.pilots,
        &mut placed.occupied,
        scratch,
    )?;
    placed.done = plan.ranks();
    Ok(placed)
}

/// The whole search: the pilot of each bucket is the least that sends its keys to distinct free positions.
pub fn place(alloc: Global, plan: &Plan) -> Result<Result<Placed, Stuck>, NoMemory>
    ensures placed { IfOk result (λ answer. IfOk answer (λ placed. IsPlaced plan.now placed)) }
    ensures stuck { IfOk result (λ answer. IfErr answer (λ stuck. IsStuckAt plan.now stuck)) }
{
    let mut scratch = Scratch::new(alloc, plan)?;
    let placed = Placed::new(alloc, plan)?;
    Ok(place_from(plan, placed, &mut scratch))
}
