// Pilots that are looked at in groups, where the table is fuller.

ghost use Rattle.std.specs.Prelude.{◌≡◌, ◌+◌, ◌<◌, ◌≤◌, [], length, take, IfSome};
ghost use Rattle.std.specs.FinSet.{contains};
ghost use Rattle.pthash.specs.Search.{pilot_fits, positions_of};
ghost use Rattle.pthash.specs.Least.{FailsBelow, IsAnswer};
ghost use Rattle.pilot_search.specs.Flags.{FailWhereSet, is_free_under};
ghost use Rattle.pilot_search.specs.Kept.{AreHashes};
ghost use Rattle.pilot_search.specs.Marking.{AreMarks};

use crate::fit::is_fit;
use crate::occupancy::Occupancy;
use divisor::Divisor;

// So many pilots make a group.
pub(crate) const GROUP: u64 = 8;

// The first pilot of a group that fits, and then its positions.
pub(crate) fn find_in_group(
    members: &[u64],
    from: u64,
    seed: u64,
    size: &Divisor,
    occupied: &Occupancy,
    hashes: &[u64],
    positions: &mut [u64],
    marks: &mut [u64],
) -> Option<u64>
    requires some { 1 ≤ length members.now }
    requires room { length members.now ≤ length positions.old }
    requires size { size.now ≡ occupied.now.size }
    requires hashes { AreHashes seed hashes.now }
    requires group { from + GROUP ≤ length hashes.now }
    requires marks { AreMarks marks.old [] }
    requires no_lower { let fit = pilot_fits seed size.now (contains occupied.now.taken) in
        FailsBelow (fit members.now) from }
    ensures pilot { let fit = pilot_fits seed size.now (contains occupied.now.taken) in
        IsAnswer (fit members.now) (from + GROUP) result }
    ensures positions { let places = positions_of seed size.now members.now in
        IfSome result (λ k. take (length members.now) positions.new ≡ places k) }
    ensures marks { AreMarks marks.new [] }
{
    let end = from + GROUP;
    let mut flags = group_flags(members, from, seed, size, occupied, hashes);
    let mut next = from;
    while next < end {
        let skipped = flags.trailing_ones();
        let pilot = next + u64::from(skipped);
        if pilot >= end {
            return None;
        }
        if is_fit(
            members,
            hashes[pilot as usize],
            size,
            occupied,
            positions,
            marks,
        ) {
            return Some(pilot);
        }
        flags = flags >> skipped >> 1;
        next = pilot + 1;
    }
    None
}

// A bit for each pilot of a group: set where the first or the second member has a taken position.
#[inline]
fn group_flags(
    members: &[u64],
    from: u64,
    seed: u64,
    size: &Divisor,
    occupied: &Occupancy,
    hashes: &[u64],
) -> u64
    requires some { 1 ≤ length members.now }
    requires size { size.now ≡ occupied.now.size }
    requires hashes { AreHashes seed hashes.now }
    requires group { from + GROUP ≤ length hashes.now }
    ensures bound { result < 256 }
    ensures fail { let fit = pilot_fits seed size.now (contains occupied.now.taken) in
        FailWhereSet (fit members.now) from result }
{
    let place = from as usize;
    let first = flags_of_eight(members[0], hashes, place, size, occupied);
    if members.len() == 1 {
        first
    } else {
        first | flags_of_eight(members[1], hashes, place, size, occupied)
    }
}

// The flags of one member under eight pilots.
#[inline]
fn flags_of_eight(
    member: u64,
    hashes: &[u64],
    from: usize,
    size: &Divisor,
    occupied: &Occupancy,
) -> u64
    requires within { from + 8 ≤ length hashes.now }
    requires size { size.now ≡ occupied.now.size }
    ensures bound { result < 256 }
    ensures fail { FailWhereSet (is_free_under hashes.now member occupied.now) from result }
{
    let low = flags_of_four(member, hashes, from, size, occupied);
    let high = flags_of_four(member, hashes, from + 4, size, occupied);
    low + 16 * high
}

#[inline]
fn flags_of_four(
    member: u64,
    hashes: &[u64],
    from: usize,
    size: &Divisor,
    occupied: &Occupancy,
) -> u64
    requires within { from + 4 ≤ length hashes.now }
    requires size { size.now ≡ occupied.now.size }
    ensures bound { result < 16 }
    ensures fail { FailWhereSet (is_free_under hashes.now member occupied.now) from result }
{
    let low = flags_of_two(member, hashes, from, size, occupied);
    let high = flags_of_two(member, hashes, from + 2, size, occupied);
    low + 4 * high
}

#[inline]
fn flags_of_two(
    member: u64,
    hashes: &[u64],
    from: usize,
    size: &Divisor,
    occupied: &Occupancy,
) -> u64
    requires within { from + 2 ≤ length hashes.now }
    requires size { size.now ≡ occupied.now.size }
    ensures bound { result < 4 }
    ensures fail { FailWhereSet (is_free_under hashes.now member occupied.now) from result }
{
    let low = flag(member, hashes, from, size, occupied);
    let high = flag(member, hashes, from + 1, size, occupied);
    low + 2 * high
}

#[inline]
fn flag(member: u64, hashes: &[u64], from: usize, size: &Divisor, occupied: &Occupancy) -> u64
    requires within { from < length hashes.now }
    requires size { size.now ≡ occupied.now.size }
    ensures bound { result < 2 }
    ensures fail { FailWhereSet (is_free_under hashes.now member occupied.now) from result }
{
    let is_taken = occupied.contains(size.remainder(member ^ hashes[from]));
    u64::from(is_taken)
}
