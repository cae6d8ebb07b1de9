// Counts and places of ones, with samples that bound the walk over the words.
ghost use Rattle.std.specs.Prelude.{◌≡◌, ◌+◌, ◌*◌, ◌%◌, ◌^◌, ◌<◌, ◌≤◌, length, take, slice_index, IfOk};
ghost use Rattle.std.specs.Prelude.{IfSome, MatchOption, None};
ghost use Rattle.std.specs.Int.RustNames.{count_ones};
ghost use Rattle.bit_vector.specs.Bits.{words_number};
ghost use Rattle.bit_vector.specs.Samples.{all_ones, IsCounted, IsInWord, IsOneAt, IsPassed, IsSampled};

use crate::bits::NoMemory;
use crate::words::low_bits;
use crate::{BLOCK, NEAR, STEP};
use std::alloc::Global;

/// The ones before each block of words, and at the end all of them.
pub fn counts_of(alloc: Global, words: &[u64]) -> Result<Vec<u64>, NoMemory>
    requires { length words.now ≤ 2 ^ 36 }
    ensures { IfOk result (λ v. IsCounted words.now v.items) }
{
    let mut counts = Vec::with_capacity(alloc, words.len().div_ceil(BLOCK) + 1)?;
    let mut total = 0;
    for (at, word) in words.iter().enumerate() {
        if at % BLOCK == 0 {
            counts.push(total)?;
        }
        total += u64::from(word.count_ones());
    }
    counts.push(total)?;
    Ok(counts)
}

/// For each so many of the ones the word that has it and its number there: 64 times the one and the other.
pub fn samples_of(alloc: Global, words: &[u64], ones: u64) -> Result<Vec<u64>, NoMemory>
    requires { length words.now ≤ 2 ^ 36 }
    ensures { IfOk result (λ v. IsSampled words.now v.items) }
{
    let mut samples = Vec::with_capacity(alloc, ones.div_ceil(STEP) as usize)?;
    // The ones so far, and the number of the next one that is noted.
    let mut total = 0;
    let mut next = 0;
    for (at, word) in words.iter().enumerate() {
        let here = u64::from(word.count_ones());
        if next < total + here {
            samples.push(64 * at as u64 + (next - total))?;
            next += STEP;
        }
        total += here;
    }
    Ok(samples)
}

/// The ones below a place.
pub fn ones_below(words: &[u64], counts: &[u64], at: usize) -> u64
    requires counted { IsCounted words.now counts.now }
    requires within { at ≤ 64 * length words.now }
    requires most { length words.now ≤ 2 ^ 36 }
    ensures { result ≡ count_ones (words_number words.now % 2 ^ at) }
{
    let word = at / 64;
    let block = word / BLOCK;
    let mut below = counts[block];
    for w in BLOCK * block..word {
        below += u64::from(words[w].count_ones());
    }
    let used = (at % 64) as u32;
    if used == 0 {
        return below;
    }
    below + u64::from(low_bits(words[word], used).count_ones())
}

// The last block that doesn't begin behind a one.
fn block_before(counts: &[u64], i: u64) -> usize
    requires some { 0 < length counts.now }
    requires none_before { slice_index counts.now 0 ≡ 0 }
    ensures within { result < length counts.now }
    ensures before { slice_index counts.now result ≤ i }
{
    let mut low = 0;
    let mut high = counts.len();
    while low + 1 < high {
        let middle = low + (high - low) / 2;
        if counts[middle] <= i {
            low = middle;
        } else {
            high = middle;
        }
    }
    low
}

// The word of a one that is counted from a word on, and its number in that word, if it is before an end.
fn word_of_one(words: &[u64], from: usize, end: usize, i: u64) -> Option<(usize, u32)>
    requires from_in { from ≤ end }
    requires end_in { end ≤ length words.now }
    ensures some { IfSome result (λ x. IsInWord words.now
        (all_ones (take from words.now) + i) x.0 x.1) }
    ensures none { result ≡ None → all_ones (take end words.now)
        ≤ all_ones (take from words.now) + i }
{
    let mut left = i;
    for at in from..end {
        let here = words[at].count_ones();
        if left < u64::from(here) {
            return Some((at, left as u32));
        }
        left -= u64::from(here);
    }
    None
}

// A one by the counts: however long no one comes, it takes few steps.
fn word_by_counts(words: &[u64], counts: &[u64], i: u64) -> (usize, u32)
    requires counted { IsCounted words.now counts.now }
    requires within { i < all_ones words.now }
    requires most { length words.now ≤ 2 ^ 36 }
    ensures { IsInWord words.now i result.0 result.1 }
{
    let block = block_before(counts, i);
    word_of_one(words, BLOCK * block, words.len(), i - counts[block]).unwrap()
}

// How many bits to pass, and the ones among them, so that a one is in the next quarter.
fn passed(rest: u64, left: u32, quarter: u32) -> (u32, u32)
    requires span { 4 * quarter ≤ 64 }
    requires here { left < count_ones (rest % 2 ^ (4 * quarter)) }
    ensures { IsPassed rest left quarter result.0 result.1 }
{
    let first = low_bits(rest, quarter).count_ones();
    let half = low_bits(rest, 2 * quarter).count_ones();
    let third = low_bits(rest, 3 * quarter).count_ones();
    let (skip, ones, next) = if left < half {
        (0, 0, first)
    } else {
        (2 * quarter, half, third)
    };
    if left < next {
        (skip, ones)
    } else {
        (skip + quarter, next)
    }
}

// The place of a one in a word, by quarters and without a branch.
fn place_in(word: u64, i: u32) -> u32
    requires { i < count_ones word }
    ensures within { result < 64 }
    ensures place { IsOneAt word i result }
{
    let mut rest = word;
    let mut left = i;
    let mut place = 0;
    let mut span = 64;
    while span > 1 {
        span /= 4;
        let (skip, ones) = passed(rest, left, span);
        left -= ones;
        rest >>= skip;
        place += skip;
    }
    place
}

/// The place of a one, `None` if there are not so many.
pub fn place_of(words: &[u64], counts: &[u64], samples: &[u64], i: u64) -> Option<u64>
    requires counted { IsCounted words.now counts.now }
    requires sampled { IsSampled words.now samples.now }
    requires most { length words.now ≤ 2 ^ 36 }
    ensures { MatchOption result (all_ones words.now ≤ i)
        (λ p. IsOneAt (words_number words.now) i p) }
{
    if i >= counts[counts.len() - 1] {
        return None;
    }
    let sample = samples[(i / STEP) as usize];
    let from = (sample / 64) as usize;
    let end = (from + NEAR).min(words.len());
    let (word, left) = match word_of_one(words, from, end, i % STEP + sample % 64) {
        Some(found) => found,
        None => word_by_counts(words, counts, i),
    };
    Some(64 * word as u64 + u64::from(place_in(words[word], left)))
}

// The place of the lowest one of a word.
fn lowest_in(word: u64) -> u32
    requires { 0 < word }
    ensures within { result < 64 }
    ensures place { IsOneAt word 0 result }
{
    word.trailing_zeros()
}

// The place of the first one in the words from one on.
fn first_one(words: &[u64], from: usize) -> Option<u64>
    requires from_in { from ≤ length words.now }
    requires most { length words.now ≤ 2 ^ 36 }
    ensures { MatchOption result (all_ones words.now ≤ all_ones (take from words.now))
        (λ p. IsOneAt (words_number words.now) (all_ones (take from words.now)) p) }
{
    for at in from..words.len() {
        let word = words[at];
        if word != 0 {
            return Some(64 * at as u64 + u64::from(lowest_in(word)));
        }
    }
    None
}

/// The place of the first one from a place on, `None` if there is none.
pub fn next_one(words: &[u64], from: u64) -> Option<u64>
    requires within { from ≤ 64 * length words.now }
    requires most { length words.now ≤ 2 ^ 36 }
    ensures { MatchOption result
        (all_ones words.now ≤ count_ones (words_number words.now % 2 ^ from))
        (λ p. IsOneAt (words_number words.now)
        (count_ones (words_number words.now % 2 ^ from)) p) }
{
    let first = (from / 64) as usize;
    if first >= words.len() {
        return None;
    }
    let rest = words[first] >> (from % 64);
    if rest != 0 {
        return Some(from + u64::from(lowest_in(rest)));
    }
    first_one(words, first + 1)
}
