// A search that goes on from pilots that were found elsewhere.

ghost use Rattle.std.specs.Prelude.{◌≡◌, ◌+◌, ◌<◌, ◌≤◌, Some, length};
ghost use Rattle.std.specs.FinSet.{contains};
ghost use Rattle.pthash.specs.Order.{bucket_at, most_members};
ghost use Rattle.pthash.specs.Search.{is_distinct, pilot_of, positions_of};
ghost use Rattle.pilot_search.specs.Outcome.{IsSearchedTo, IsPlacedSoFar, AreFirstPilots};

use crate::occupancy::Occupancy;
use crate::placing::Placed;
use crate::plan::Plan;
use crate::scratch::Scratch;

/// Computes the positions of a bucket under a pilot, and tells whether they are distinct.
pub fn spread(plan: &Plan, rank: u64, pilot: u64, scratch: &mut Scratch) -> bool
    requires rank { rank < length plan.now.buckets }
    requires room { most_members plan.now.buckets ≤ scratch.old.members }
    ensures positions { let members = (bucket_at plan.now.buckets rank).members in
        scratch.new.positions ≡ positions_of plan.now.seed plan.now.size members pilot }
    ensures distinct { result ≡ is_distinct scratch.new.positions }
    ensures room { scratch.new.members ≡ scratch.old.members }
{
    let members = plan.members(rank);
    scratch.spread(members, pilot, plan.seed(), plan.size())
}

/// Takes up the pilots of the first buckets on a new state.
pub fn adopt(plan: &Plan, placed: Placed, pilots: &[u64], scratch: &mut Scratch) -> Placed
    requires new { placed.done ≡ 0 }
    requires placed { IsPlacedSoFar plan.now placed }
    requires room { most_members plan.now.buckets ≤ scratch.old.members }
    requires pilots { AreFirstPilots plan.now pilots.now }
    ensures done { result.done ≡ length pilots.now }
    ensures placed { IsPlacedSoFar plan.now result }
    ensures room { scratch.new.members ≡ scratch.old.members }
{
    let mut placed = placed;
    adopt_pilots(
        plan,
        pilots,
        placed.pilots.as_mut_slice(),
        &mut placed.occupied,
        scratch,
    );
    placed.done = pilots.len() as u64;
    placed
}

fn adopt_pilots(
    plan: &Plan,
    known: &[u64],
    pilots: &mut [u64],
    occupied: &mut Occupancy,
    scratch: &mut Scratch,
)
    requires new { IsSearchedTo plan.now 0 pilots.old occupied.old }
    requires room { most_members plan.now.buckets ≤ scratch.old.members }
    requires known { AreFirstPilots plan.now known.now }
    ensures adopted { IsSearchedTo plan.now (length known.now) pilots.new occupied.new }
    ensures room { scratch.new.members ≡ scratch.old.members }
{
    for rank in 0..known.len() {
        adopt_pilot(plan, rank as u64, known[rank], pilots, occupied, scratch);
    }
}

// Gives the bucket at a rank a pilot that is known to be its own.
fn adopt_pilot(
    plan: &Plan,
    rank: u64,
    pilot: u64,
    pilots: &mut [u64],
    occupied: &mut Occupancy,
    scratch: &mut Scratch,
)
    requires rank { rank < length plan.now.buckets }
    requires room { most_members plan.now.buckets ≤ scratch.old.members }
    requires so_far { IsSearchedTo plan.now rank pilots.old occupied.old }
    requires pilot { let members = (bucket_at plan.now.buckets rank).members in
        let taken = contains occupied.old.taken in
        pilot_of plan.now.seed plan.now.size plan.now.limit taken members ≡ Some pilot }
    ensures placed { IsSearchedTo plan.now (rank + 1) pilots.new occupied.new }
    ensures room { scratch.new.members ≡ scratch.old.members }
{
    let members = plan.members(rank);
    scratch.spread(members, pilot, plan.seed(), plan.size());
    pilots[rank as usize] = pilot;
    occupied.take_all(scratch.positions());
}
