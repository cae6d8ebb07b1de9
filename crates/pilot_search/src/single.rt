// The search for the pilot of one bucket, without a plan.

ghost use Rattle.std.specs.Prelude.{◌≡◌, ◌≤◌, length, IfSome, IfNone};
ghost use Rattle.std.specs.FinSet as set;
ghost use Rattle.pthash.specs.declared.TheConstants.{MAX_PILOTS};
ghost use Rattle.pthash.specs.Search.{pilot_of, positions_of};

use crate::occupancy::Occupancy;
use crate::scratch::Scratch;
use divisor::Divisor;

/// The pilot of a bucket with these members, whose positions are then taken.
pub fn place_one(
    seed: u64,
    limit: u64,
    members: &[u64],
    occupied: &mut Occupancy,
    scratch: &mut Scratch,
) -> Option<u64>
    requires some { 1 ≤ length members.now }
    requires room { length members.now ≤ scratch.old.members }
    requires limit_low { 1 ≤ limit }
    requires limit_high { limit ≤ MAX_PILOTS }
    ensures pilot { let taken = set.contains occupied.old.taken in
        result ≡ pilot_of seed occupied.old.size limit taken members.now }
    ensures taken { let places = positions_of seed occupied.old.size members.now in
        let before = occupied.old.taken in
        IfSome result (λ k. occupied.new.taken ≡ set.union before (set.from_list (places k))) }
    ensures kept { IfNone result (occupied.new ≡ occupied.old) }
    ensures size { occupied.new.size ≡ occupied.old.size }
    ensures room { scratch.new.members ≡ scratch.old.members }
{
    let size = Divisor::new(occupied.size());
    match scratch.find_pilot(members, 0, seed, limit, &size, occupied) {
        Some(pilot) => {
            occupied.take_all(scratch.positions());
            Some(pilot)
        }
        None => None,
    }
}
