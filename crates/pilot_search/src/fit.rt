// Whether a pilot fits a bucket, and its positions.

ghost use Rattle.std.specs.Prelude.{◌≡◌, ◌<◌, ◌≤◌, [], true, false, length, take, not, IsTrue};
ghost use Rattle.std.specs.List.{list_all};
ghost use Rattle.std.specs.FinSet.{contains};
ghost use Rattle.pthash.specs.Search.{fits};
ghost use Rattle.pilot_search.specs.Marking.{AreMarks};
ghost use Rattle.pilot_search.specs.Table.{positions_under};

use crate::occupancy::Occupancy;
use crate::repeats::{FEW, are_apart, mark_new, unmark};
use divisor::Divisor;

// Whether a pilot of this hash fits; then `positions` begins with the members' positions.
#[inline]
pub(crate) fn is_fit(
    members: &[u64],
    hash: u64,
    size: &Divisor,
    occupied: &Occupancy,
    positions: &mut [u64],
    marks: &mut [u64],
) -> bool
    requires room { length members.now ≤ length positions.old }
    requires size { size.now ≡ occupied.now.size }
    requires marks { AreMarks marks.old [] }
    ensures fits { let places = positions_under hash occupied.now.size members.now in
        result ≡ fits (contains occupied.now.taken) places }
    ensures positions { let places = positions_under hash occupied.now.size members.now in
        IsTrue result → take (length members.now) positions.new ≡ places }
    ensures marks { AreMarks marks.new [] }
{
    if members.len() > FEW {
        is_fit_marked(members, hash, size, occupied, positions, marks)
    } else {
        is_fit_compared(members, hash, size, occupied, positions)
    }
}

// The same by comparing the positions each with each, once all of them are free.
#[inline]
fn is_fit_compared(
    members: &[u64],
    hash: u64,
    size: &Divisor,
    occupied: &Occupancy,
    positions: &mut [u64],
) -> bool
    requires room { length members.now ≤ length positions.old }
    requires size { size.now ≡ occupied.now.size }
    ensures fits { let places = positions_under hash occupied.now.size members.now in
        result ≡ fits (contains occupied.now.taken) places }
    ensures positions { let places = positions_under hash occupied.now.size members.now in
        IsTrue result → take (length members.now) positions.new ≡ places }
{
    if !are_free(members, hash, size, occupied, positions) {
        return false;
    }
    are_apart(&positions[..members.len()])
}

// Whether all positions are free.
#[inline]
fn are_free(
    members: &[u64],
    hash: u64,
    size: &Divisor,
    occupied: &Occupancy,
    positions: &mut [u64],
) -> bool
    requires room { length members.now ≤ length positions.old }
    requires size { size.now ≡ occupied.now.size }
    ensures free { let places = positions_under hash occupied.now.size members.now in
        result ≡ list_all (λ p. not (contains occupied.now.taken p)) places }
    ensures positions { let places = positions_under hash occupied.now.size members.now in
        IsTrue result → take (length members.now) positions.new ≡ places }
{
    for (i, member) in members.iter().enumerate() {
        let position = size.remainder(*member ^ hash);
        if occupied.contains(position) {
            return false;
        }
        positions[i] = position;
    }
    true
}

// The same by marking each position.
fn is_fit_marked(
    members: &[u64],
    hash: u64,
    size: &Divisor,
    occupied: &Occupancy,
    positions: &mut [u64],
    marks: &mut [u64],
) -> bool
    requires room { length members.now ≤ length positions.old }
    requires size { size.now ≡ occupied.now.size }
    requires marks { AreMarks marks.old [] }
    ensures fits { let places = positions_under hash occupied.now.size members.now in
        result ≡ fits (contains occupied.now.taken) places }
    ensures positions { let places = positions_under hash occupied.now.size members.now in
        IsTrue result → take (length members.now) positions.new ≡ places }
    ensures marks { AreMarks marks.new [] }
{
    let count = fitting_front(members, hash, size, occupied, positions, marks);
    unmark(marks, &positions[..count]);
    count == members.len()
}

// How many positions come before the first that is taken or repeats an earlier one; these are marked.
fn fitting_front(
    members: &[u64],
    hash: u64,
    size: &Divisor,
    occupied: &Occupancy,
    positions: &mut [u64],
    marks: &mut [u64],
) -> usize
    requires room { length members.now ≤ length positions.old }
    requires size { size.now ≡ occupied.now.size }
    requires marks { AreMarks marks.old [] }
    ensures within { result ≤ length members.now }
    ensures all { let places = positions_under hash occupied.now.size members.now in
        result ≡ length members.now → fits (contains occupied.now.taken) places ≡ true }
    ensures some { let places = positions_under hash occupied.now.size members.now in
        result < length members.now → fits (contains occupied.now.taken) places ≡ false }
    ensures positions { let places = positions_under hash occupied.now.size members.now in
        take result positions.new ≡ take result places }
    ensures marks { AreMarks marks.new (take result positions.new) }
{
    for (i, member) in members.iter().enumerate() {
        let position = size.remainder(*member ^ hash);
        if occupied.contains(position) {
            return i;
        }
        if !mark_new(marks, &positions[..i], position) {
            return i;
        }
        positions[i] = position;
    }
    members.len()
}

// Writes the position of each member to its place.
pub(crate) fn write_positions(members: &[u64], hash: u64, size: &Divisor, positions: &mut [u64])
    requires { length members.now ≤ length positions.old }
    ensures { let places = positions_under hash size.now members.now in
        take (length members.now) positions.new ≡ places }
{
    for (i, member) in members.iter().enumerate() {
        positions[i] = size.remainder(*member ^ hash);
    }
}
