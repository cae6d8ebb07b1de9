// The pilot of a large bucket: each tested pilot stamps the positions that it comes to.

ghost use Rattle.std.specs.Prelude.{◌≡◌, ◌<◌, ◌≤◌, [], length, take, IfSome, IsTrue, OnOk, OnErr};
ghost use Rattle.std.specs.FinSet.{contains, len};
ghost use Rattle.pthash.specs.Hash.{pilot_hash};
ghost use Rattle.pthash.specs.Search.{fits, pilot_fits, positions_of};
ghost use Rattle.pthash.specs.Least.{FailsBelow, IsAnswer};
ghost use Rattle.pilot_search.specs.Kept.{AreHashes};
ghost use Rattle.pilot_search.specs.Stamping.{AreStamped, AreUpTo};
ghost use Rattle.pilot_search.specs.Table.{positions_under};

use crate::fit::write_positions;
use crate::occupancy::Occupancy;
use divisor::Divisor;
use murmur64::pilot_hash;
use std::alloc::AllocError;

// A bucket of fewer members is tested by marks.
const MANY: u64 = 64;

// How many stamps buckets of at most so many members want: one for each position where a repeat is likely, or none.
pub(crate) fn stamp_count(members: u64, size: u64) -> u64
    ensures { result ≤ size }
{
    let half = members / 2;
    if members < MANY {
        0
    } else if half.saturating_mul(half) < size {
        0
    } else {
        size
    }
}

// Whether a bucket of so many members wants stamps, and there are enough.
#[inline]
pub(crate) fn are_wanted(stamps: &[u16], members: u64, size: u64) -> bool
    ensures { IsTrue result → size ≤ length stamps.now }
{
    if (stamps.len() as u64) < size {
        return false;
    }
    stamp_count(members, size) > 0
}

// Adds stamps up to this count, if there are fewer.
pub(crate) fn add_stamps(stamps: &mut Vec<u16>, count: usize) -> Result<(), AllocError>
    ensures ok { OnOk result (count ≤ length stamps.new.items) }
    ensures err { OnErr result (stamps.new.items ≡ stamps.old.items) }
{
    if stamps.len() < count {
        stamps.resize(count, 0)?;
    }
    Ok(())
}

// The pilot of a bucket with these members, sought from `first` on, and then its positions.
pub(crate) fn find_by_stamps(
    members: &[u64],
    first: u64,
    seed: u64,
    limit: u64,
    size: &Divisor,
    occupied: &Occupancy,
    hashes: &[u64],
    positions: &mut [u64],
    stamps: &mut [u16],
) -> Option<u64>
    requires room { length members.now ≤ length positions.old }
    requires size { size.now ≡ occupied.now.size }
    requires hashes { AreHashes seed hashes.now }
    requires stamps { size.now ≤ length stamps.old }
    requires no_lower { let fit = pilot_fits seed size.now (contains occupied.now.taken) in
        FailsBelow (fit members.now) first }
    ensures pilot { let fit = pilot_fits seed size.now (contains occupied.now.taken) in
        IsAnswer (fit members.now) limit result }
    ensures positions { let places = positions_of seed size.now members.now in
        IfSome result (λ k. take (length members.now) positions.new ≡ places k) }
{
    match find_stamped(members, first, seed, limit, size, occupied, hashes, stamps) {
        Some(pilot) => {
            let hash = hash_among(hashes, pilot, seed);
            write_positions(members, hash, size, positions);
            Some(pilot)
        }
        None => None,
    }
}

// The pilot, one after another being tested with a stamp of its own.
fn find_stamped(
    members: &[u64],
    first: u64,
    seed: u64,
    limit: u64,
    size: &Divisor,
    occupied: &Occupancy,
    hashes: &[u64],
    stamps: &mut [u16],
) -> Option<u64>
    requires size { size.now ≡ occupied.now.size }
    requires hashes { AreHashes seed hashes.now }
    requires stamps { size.now ≤ length stamps.old }
    requires no_lower { let fit = pilot_fits seed size.now (contains occupied.now.taken) in
        FailsBelow (fit members.now) first }
    ensures { let fit = pilot_fits seed size.now (contains occupied.now.taken) in
        IsAnswer (fit members.now) limit result }
{
    let taken = occupied.count();
    stamps.fill(0);
    let mut stamp = 0;
    for pilot in first..limit {
        stamp = next_stamp(stamps, stamp);
        let hash = hash_among(hashes, pilot, seed);
        if is_fit_stamped(members, hash, size, occupied, taken, stamps, stamp) {
            return Some(pilot);
        }
    }
    None
}

// The stamp after the last one, which no position holds; after the highest all are cleared.
#[inline]
fn next_stamp(stamps: &mut [u16], last: u16) -> u16
    requires { AreUpTo last stamps.old }
    ensures { AreStamped stamps.new result [] }
{
    if last == u16::MAX {
        stamps.fill(0);
        1
    } else {
        last + 1
    }
}

// The hash of a pilot, kept or not.
#[inline]
pub(crate) fn hash_among(hashes: &[u64], pilot: u64, seed: u64) -> u64
    requires { AreHashes seed hashes.now }
    ensures { result ≡ pilot_hash pilot seed }
{
    if pilot < hashes.len() as u64 {
        hashes[pilot as usize]
    } else {
        pilot_hash(pilot, seed)
    }
}

// Whether a pilot of this hash fits, by a stamp that no position holds.
#[inline]
fn is_fit_stamped(
    members: &[u64],
    hash: u64,
    size: &Divisor,
    occupied: &Occupancy,
    taken: u64,
    stamps: &mut [u16],
    stamp: u16,
) -> bool
    requires size { size.now ≡ occupied.now.size }
    requires count { taken ≡ len occupied.now.taken }
    requires room { size.now ≤ length stamps.old }
    requires new { AreStamped stamps.old stamp [] }
    ensures fits { let places = positions_under hash occupied.now.size members.now in
        result ≡ fits (contains occupied.now.taken) places }
    ensures stamps { AreUpTo stamp stamps.new }
{
    for member in members {
        let position = size.remainder(*member ^ hash);
        if stamps[position as usize] == stamp {
            return false;
        }
        if is_taken(occupied, taken, position) {
            return false;
        }
        stamps[position as usize] = stamp;
    }
    true
}

// Whether a position is taken, in a table where so many are: an empty one is not looked at.
#[inline]
fn is_taken(occupied: &Occupancy, taken: u64, position: u64) -> bool
    requires count { taken ≡ len occupied.now.taken }
    requires below { position < occupied.now.size }
    ensures { result ≡ contains occupied.now.taken position }
{
    if taken == 0 {
        false
    } else {
        occupied.contains(position)
    }
}
