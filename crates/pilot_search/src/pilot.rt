// The least pilot that sends the keys of one bucket to distinct free positions.

ghost use Rattle.std.specs.Prelude.{◌≡◌, ◌≤◌, [], length, take, min, IfSome};
ghost use Rattle.std.specs.FinSet.{contains};
ghost use Rattle.pthash.specs.Search.{pilot_fits, positions_of};
ghost use Rattle.pthash.specs.Least.{FailsBelow, IsAnswer};
ghost use Rattle.pilot_search.specs.Kept.{AreHashes};
ghost use Rattle.pilot_search.specs.Marking.{AreMarks};

use crate::fit::is_fit;
use crate::groups::{GROUP, find_in_group};
use crate::occupancy::Occupancy;
use crate::repeats::{FEW, are_members_distinct, may_fit};
use crate::stamps::{are_wanted, find_by_stamps};
use divisor::Divisor;
use murmur64::pilot_hash;

// The pilot of a bucket with these members, sought from `first` on, and then its positions.
pub(crate) fn find_pilot(
    members: &[u64],
    first: u64,
    seed: u64,
    limit: u64,
    size: &Divisor,
    occupied: &Occupancy,
    hashes: &[u64],
    positions: &mut [u64],
    marks: &mut [u64],
    stamps: &mut [u16],
) -> Option<u64>
    requires some { 1 ≤ length members.now }
    requires room { length members.now ≤ length positions.old }
    requires size { size.now ≡ occupied.now.size }
    requires hashes { AreHashes seed hashes.now }
    requires marks { AreMarks marks.old [] }
    requires no_lower { let fit = pilot_fits seed size.now (contains occupied.now.taken) in
        FailsBelow (fit members.now) first }
    ensures pilot { let fit = pilot_fits seed size.now (contains occupied.now.taken) in
        IsAnswer (fit members.now) limit result }
    ensures positions { let places = positions_of seed size.now members.now in
        IfSome result (λ k. take (length members.now) positions.new ≡ places k) }
    ensures marks { AreMarks marks.new [] }
{
    if members.len() > FEW {
        if !are_members_distinct(members, positions) {
            return None;
        }
    }
    if are_wanted(stamps, members.len() as u64, size.value()) {
        return find_by_stamps(
            members, first, seed, limit, size, occupied, hashes, positions, stamps,
        );
    }
    match find_among_kept(
        members, first, seed, limit, size, occupied, hashes, positions, marks,
    ) {
        Some(pilot) => Some(pilot),
        None => find_beyond(
            members, first, seed, limit, size, occupied, hashes, positions, marks,
        ),
    }
}

// The pilot, if it is among those whose hashes are kept.
fn find_among_kept(
    members: &[u64],
    first: u64,
    seed: u64,
    limit: u64,
    size: &Divisor,
    occupied: &Occupancy,
    hashes: &[u64],
    positions: &mut [u64],
    marks: &mut [u64],
) -> Option<u64>
    requires some { 1 ≤ length members.now }
    requires room { length members.now ≤ length positions.old }
    requires size { size.now ≡ occupied.now.size }
    requires hashes { AreHashes seed hashes.now }
    requires marks { AreMarks marks.old [] }
    requires no_lower { let fit = pilot_fits seed size.now (contains occupied.now.taken) in
        FailsBelow (fit members.now) first }
    ensures pilot { let fit = pilot_fits seed size.now (contains occupied.now.taken) in
        IsAnswer (fit members.now) (min limit (length hashes.now)) result }
    ensures positions { let places = positions_of seed size.now members.now in
        IfSome result (λ k. take (length members.now) positions.new ≡ places k) }
    ensures marks { AreMarks marks.new [] }
{
    if occupied.count() > occupied.size() / 4 {
        find_kept_fuller(
            members, first, seed, limit, size, occupied, hashes, positions, marks,
        )
    } else {
        find_kept(
            members, first, seed, limit, size, occupied, hashes, positions, marks,
        )
    }
}

// The same, one pilot after another.
fn find_kept(
    members: &[u64],
    first: u64,
    seed: u64,
    limit: u64,
    size: &Divisor,
    occupied: &Occupancy,
    hashes: &[u64],
    positions: &mut [u64],
    marks: &mut [u64],
) -> Option<u64>
    requires room { length members.now ≤ length positions.old }
    requires size { size.now ≡ occupied.now.size }
    requires hashes { AreHashes seed hashes.now }
    requires marks { AreMarks marks.old [] }
    requires no_lower { let fit = pilot_fits seed size.now (contains occupied.now.taken) in
        FailsBelow (fit members.now) first }
    ensures pilot { let fit = pilot_fits seed size.now (contains occupied.now.taken) in
        IsAnswer (fit members.now) (min limit (length hashes.now)) result }
    ensures positions { let places = positions_of seed size.now members.now in
        IfSome result (λ k. take (length members.now) positions.new ≡ places k) }
    ensures marks { AreMarks marks.new [] }
{
    for pilot in first..limit.min(hashes.len() as u64) {
        if is_fit(
            members,
            hashes[pilot as usize],
            size,
            occupied,
            positions,
            marks,
        ) {
            return Some(pilot);
        }
    }
    None
}

// The same, a group of pilots after another while groups are left.
fn find_kept_fuller(
    members: &[u64],
    first: u64,
    seed: u64,
    limit: u64,
    size: &Divisor,
    occupied: &Occupancy,
    hashes: &[u64],
    positions: &mut [u64],
    marks: &mut [u64],
) -> Option<u64>
    requires some { 1 ≤ length members.now }
    requires room { length members.now ≤ length positions.old }
    requires size { size.now ≡ occupied.now.size }
    requires hashes { AreHashes seed hashes.now }
    requires marks { AreMarks marks.old [] }
    requires no_lower { let fit = pilot_fits seed size.now (contains occupied.now.taken) in
        FailsBelow (fit members.now) first }
    ensures pilot { let fit = pilot_fits seed size.now (contains occupied.now.taken) in
        IsAnswer (fit members.now) (min limit (length hashes.now)) result }
    ensures positions { let places = positions_of seed size.now members.now in
        IfSome result (λ k. take (length members.now) positions.new ≡ places k) }
    ensures marks { AreMarks marks.new [] }
{
    let end = limit.min(hashes.len() as u64);
    let mut next = first;
    while end.saturating_sub(next) >= GROUP {
        match find_in_group(
            members, next, seed, size, occupied, hashes, positions, marks,
        ) {
            Some(pilot) => return Some(pilot),
            None => {}
        }
        next += GROUP;
    }
    find_kept(
        members, next, seed, limit, size, occupied, hashes, positions, marks,
    )
}

// The pilot, if none of those whose hashes are kept fits. Equal members have no pilot.
fn find_beyond(
    members: &[u64],
    first: u64,
    seed: u64,
    limit: u64,
    size: &Divisor,
    occupied: &Occupancy,
    hashes: &[u64],
    positions: &mut [u64],
    marks: &mut [u64],
) -> Option<u64>
    requires room { length members.now ≤ length positions.old }
    requires size { size.now ≡ occupied.now.size }
    requires marks { AreMarks marks.old [] }
    requires no_lower { let fit = pilot_fits seed size.now (contains occupied.now.taken) in
        FailsBelow (fit members.now) first }
    requires none_kept { let fit = pilot_fits seed size.now (contains occupied.now.taken) in
        FailsBelow (fit members.now) (min limit (length hashes.now)) }
    ensures pilot { let fit = pilot_fits seed size.now (contains occupied.now.taken) in
        IsAnswer (fit members.now) limit result }
    ensures positions { let places = positions_of seed size.now members.now in
        IfSome result (λ k. take (length members.now) positions.new ≡ places k) }
    ensures marks { AreMarks marks.new [] }
{
    if !may_fit(members) {
        return None;
    }
    let kept = limit.min(hashes.len() as u64);
    for pilot in first.max(kept)..limit {
        if is_fit(
            members,
            pilot_hash(pilot, seed),
            size,
            occupied,
            positions,
            marks,
        ) {
            return Some(pilot);
        }
    }
    None
}
