// The mark and the numbers of keys of the partitions.
ghost use Rattle.std.specs.Prelude.{◌≡◌, ◌+◌, ◌-◌, ◌*◌, ◌^◌, ◌≤◌, ◌<◌, ℕ, List, length, drop};
ghost use Rattle.std.specs.Prelude.{sum, option_map, IfOk, OnOk, OnErr};
ghost use Rattle.elias_fano.specs.Values.{below_len};
ghost use Rattle.index_text.specs.Faults.{Gives};
ghost use Rattle.index_text.specs.Fields.{mark_at, counts_at};
ghost use Rattle.index_file.specs.Starts.{starts_from};

use crate::fields::word_in;
use bucket_map::MAX_KEYS;
use build_outcome::KeyMark;
use elias_fano::append_words;
use index_text::{IndexFault, MARK_LEN, MARKED};
use pilot_codecs::NoMemory;
use std::alloc::Global;

// The mark at a place, if the version has one, and the place after it.
#[tactic(auto, unfolding(index_text::specs::Fields::mark_at))]
pub(crate) fn mark_of(
    version: u8,
    bytes: &[u8],
    at: usize,
) -> Result<(Option<KeyMark>, usize), IndexFault>
    requires { at ≤ length bytes.now }
    ensures value { Gives (λ x. (x.0, drop x.1 bytes.now)) result
        (mark_at version (drop at bytes.now)) }
    ensures within { IfOk result (λ x. x.1 ≤ length bytes.now) }
{
    if version != MARKED {
        return Ok((None, at));
    }
    if bytes.len() - at < MARK_LEN {
        return Err(IndexFault::Short);
    }
    let mark = KeyMark {
        sum: word_in(bytes, at),
        xor: word_in(bytes, at + 8),
    };
    Ok((Some(mark), at + MARK_LEN))
}

// How many numbers at the front are below a bound.
fn below(bound: u64, numbers: &[u64]) -> usize
    ensures { result ≡ below_len bound numbers.now }
{
    for i in 0..numbers.len() {
        if numbers[i] >= bound {
            return i;
        }
    }
    numbers.len()
}

// The sum of numbers of keys.
fn sum_of(counts: &[u64]) -> u64
    requires few { length counts.now ≤ 2 ^ 20 }
    requires small { below_len (MAX_KEYS + 1) counts.now ≡ length counts.now }
    ensures { result ≡ sum counts.now }
{
    let mut total = 0;
    for i in 0..counts.len() {
        total += counts[i];
    }
    total
}

// How many keys each of so many partitions has, n in all, and the place after them.
pub(crate) fn counts_of(
    alloc: Global,
    n: u64,
    parts: u64,
    bytes: &[u8],
    at: usize,
) -> Result<(Vec<u64>, usize), IndexFault>
    requires few { parts ≤ 2 ^ 20 }
    requires within { at ≤ length bytes.now }
    ensures value { Gives (λ x. (x.0.items, drop x.1 bytes.now)) result
        (counts_at (length bytes.now) n parts (drop at bytes.now)) }
    ensures count { IfOk result (λ x. length x.0.items ≡ parts) }
    ensures small { IfOk result (λ x. below_len (MAX_KEYS + 1) x.0.items ≡ length x.0.items) }
    ensures within { IfOk result (λ x. x.1 ≤ length bytes.now) }
{
    let rest = &bytes[at..];
    if (rest.len() as u64) < 8 * parts {
        return Err(IndexFault::Short);
    }
    let mut counts = Vec::new(alloc);
    append_words(&mut counts, rest, parts as usize)?;
    let few = below(MAX_KEYS + 1, &counts);
    if (few as u64) < parts {
        return Err(IndexFault::Field {
            at: (at + 8 * few) as u64,
        });
    }
    let sum = sum_of(&counts);
    if sum != n {
        return Err(IndexFault::Count { kept: n, sum });
    }
    Ok((counts, at + 8 * parts as usize))
}

// How many keys the partitions before each have.
pub(crate) fn starts_of(alloc: Global, counts: &[u64]) -> Result<Vec<u64>, NoMemory>
    requires few { length counts.now ≤ 2 ^ 20 }
    requires small { below_len (MAX_KEYS + 1) counts.now ≡ length counts.now }
    ensures { IfOk result (λ starts. starts.items ≡ starts_from 0 counts.now) }
{
    let mut starts = Vec::new(alloc);
    starts.reserve(counts.len())?;
    let mut total = 0;
    for i in 0..counts.len() {
        starts.push(total)?;
        total += counts[i];
    }
    Ok(starts)
}
