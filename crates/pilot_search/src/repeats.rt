// Whether numbers are all different.

ghost use Rattle.std.specs.Prelude.{◌≡◌, ◌<◌, ◌≤◌, ◌*◌, ◌^◌, ◌++◌, [], ◌∷◌, true, false, length, take, not, IsTrue, IsFalse};
ghost use Rattle.std.specs.List.Sorted.{IsSorted};
ghost use Rattle.std.specs.Ordering.{nat_cmp};
ghost use Rattle.pthash.specs.Search.{is_among, is_distinct};
ghost use Rattle.pilot_search.specs.Marking.{AreMarks, mark_of};

use crate::bits::{is_set, set_bit};

// So many numbers are compared each with each, and more are marked.
pub(crate) const FEW: usize = 16;

// Whether no number comes twice; the marks are lent, and are cleared again.
pub(crate) fn are_distinct(numbers: &[u64], marks: &mut [u64]) -> bool
    requires { AreMarks marks.old [] }
    ensures distinct { result ≡ is_distinct numbers.now }
    ensures marks { AreMarks marks.new [] }
{
    if numbers.len() > FEW {
        are_marked_apart(numbers, marks)
    } else {
        are_apart(numbers)
    }
}

// The same by comparing each with each.
pub(crate) fn are_apart(numbers: &[u64]) -> bool
    ensures { result ≡ is_distinct numbers.now }
{
    for i in 1..numbers.len() {
        if numbers[..i].contains(&numbers[i]) {
            return false;
        }
    }
    true
}

// Whether no member comes twice: many are sorted in room that is lent.
pub(crate) fn are_members_distinct(members: &[u64], room: &mut [u64]) -> bool
    requires { length members.now ≤ length room.old }
    ensures { result ≡ is_distinct members.now }
{
    if members.len() > FEW {
        are_sorted_apart(members, &mut room[..members.len()])
    } else {
        are_apart(members)
    }
}

fn are_sorted_apart(members: &[u64], sorted: &mut [u64]) -> bool
    requires { length sorted.old ≡ length members.now }
    ensures { result ≡ is_distinct members.now }
{
    sorted.copy_from_slice(members);
    sorted.sort_unstable();
    are_rising(sorted)
}

// Whether numbers that are sorted are all different.
fn are_rising(numbers: &[u64]) -> bool
    requires { IsSorted nat_cmp numbers.now }
    ensures { result ≡ is_distinct numbers.now }
{
    for i in 1..numbers.len() {
        if numbers[i - 1] >= numbers[i] {
            return false;
        }
    }
    true
}

// Whether few members are all different; many are taken to be.
pub(crate) fn may_fit(members: &[u64]) -> bool
    ensures { IsFalse result → is_distinct members.now ≡ false }
{
    if members.len() > FEW {
        true
    } else {
        are_apart(members)
    }
}

fn are_marked_apart(numbers: &[u64], marks: &mut [u64]) -> bool
    requires { AreMarks marks.old [] }
    ensures distinct { result ≡ is_distinct numbers.now }
    ensures marks { AreMarks marks.new [] }
{
    let count = distinct_front(numbers, marks);
    unmark(marks, &numbers[..count]);
    count == numbers.len()
}

// How many numbers come before the first that repeats an earlier one; these are marked.
fn distinct_front(numbers: &[u64], marks: &mut [u64]) -> usize
    requires { AreMarks marks.old [] }
    ensures within { result ≤ length numbers.now }
    ensures all { result ≡ length numbers.now → is_distinct numbers.now ≡ true }
    ensures some { result < length numbers.now → is_distinct numbers.now ≡ false }
    ensures marks { AreMarks marks.new (take result numbers.now) }
{
    for i in 0..numbers.len() {
        if !mark_new(marks, &numbers[..i], numbers[i]) {
            return i;
        }
    }
    numbers.len()
}

#[inline]
fn mark(words: usize, number: u64) -> u64
    requires some { 1 ≤ words }
    requires bound { words ≤ 2 ^ 32 }
    ensures value { result ≡ mark_of words number }
    ensures below { result < 64 * words }
{
    number & (64 * words as u64 - 1)
}

// Marks a number that is none of the earlier ones, which are marked.
#[inline]
pub(crate) fn mark_new(marks: &mut [u64], earlier: &[u64], number: u64) -> bool
    requires { AreMarks marks.old earlier.now }
    ensures new { result ≡ not (is_among earlier.now number) }
    ensures marked { IsTrue result → AreMarks marks.new (earlier.now ++ number ∷ []) }
    ensures kept { IsFalse result → AreMarks marks.new earlier.now }
{
    let bit = mark(marks.len(), number);
    if is_set(marks, bit) {
        if earlier.contains(&number) {
            return false;
        }
    }
    set_bit(marks, bit);
    true
}

// Clears the marks of these numbers.
pub(crate) fn unmark(marks: &mut [u64], numbers: &[u64])
    requires { AreMarks marks.old numbers.now }
    ensures { AreMarks marks.new [] }
{
    for number in numbers {
        let bit = mark(marks.len(), *number);
        marks[(bit / 64) as usize] = 0;
    }
}
