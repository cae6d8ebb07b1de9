// The lists of the partitions, read one after the other.
ghost use Rattle.std.specs.Prelude.{◌≡◌, ◌+◌, ◌-◌, ◌^◌, ◌≤◌, ◌<◌, length, drop, All, IfOk, OnOk};
ghost use Rattle.pthash.specs.declared.TheConstants.{MAX_KEYS, MAX_BUCKETS, MAX_POSITIONS};
ghost use Rattle.bucket_map.specs.ShapeData.{shape_data};
ghost use Rattle.elias_fano.specs.Values.{below_len};
ghost use Rattle.index_text.specs.Faults.{Gives};
ghost use Rattle.index_text.specs.Lists.{pilots_at, free_at, partition_at, partitions_at};
ghost use Rattle.index_file.specs.Lists.{part_data};
ghost use Rattle.index_file.specs.Held.{parts_data, IsUnder};

use crate::lists::Lists;
use bucket_map::{BucketDivisors, MAX_PILOTS, Shape, bucket_count, table_size};
use divisor::Divisor;
use elias_fano::EliasFano;
use index_text::IndexFault;
use pilot_codecs::{Encoding, Pilots};
use std::alloc::Global;

// The pilots of the partition with a number, of so many buckets, and the place after them.
fn pilots_of(
    alloc: Global,
    bytes: &[u8],
    at: usize,
    enc: Encoding,
    number: u32,
    buckets: u64,
) -> Result<(Pilots, usize), IndexFault>
    requires within { at ≤ length bytes.now }
    requires few { buckets ≤ MAX_BUCKETS }
    ensures value { Gives (λ x. (x.0.values, drop x.1 bytes.now)) result
        (pilots_at (length bytes.now) enc number buckets (drop at bytes.now)) }
    ensures enc { IfOk result (λ x. x.0.enc ≡ enc) }
    ensures count { IfOk result (λ x. length x.0.values ≡ buckets) }
    ensures within { IfOk result (λ x. x.1 ≤ length bytes.now) }
{
    let (pilots, next) = Pilots::read(alloc, bytes, at, buckets, enc)?;
    let bucket = pilots.below(MAX_PILOTS);
    if bucket < buckets {
        return Err(IndexFault::Pilot {
            part: number,
            bucket,
        });
    }
    Ok((pilots, next))
}

// The free list of the partition with a number, of n keys and so many positions, and the place after
// it.
fn free_of(
    alloc: Global,
    bytes: &[u8],
    at: usize,
    number: u32,
    n: u64,
    size: u64,
) -> Result<(EliasFano, usize), IndexFault>
    requires within { at ≤ length bytes.now }
    requires few { size ≤ MAX_POSITIONS }
    requires holds { n ≤ size }
    ensures value { Gives (λ x. (x.0, drop x.1 bytes.now)) result
        (free_at (length bytes.now) number n size (drop at bytes.now)) }
    ensures count { IfOk result (λ x. n + length x.0 ≡ size) }
    ensures within { IfOk result (λ x. x.1 ≤ length bytes.now) }
{
    let (free, next) = EliasFano::read(alloc, bytes, at, size - n)?;
    let place = free.below(n);
    if place < size - n {
        return Err(IndexFault::Free {
            part: number,
            place,
        });
    }
    Ok((free, next))
}

// The partition with a number, of n keys, and the place after it.
#[tactic(auto, unfolding(index_text::specs::Lists::partition_at))]
fn lists_of(
    alloc: Global,
    bytes: &[u8],
    at: usize,
    enc: Encoding,
    shape: Shape,
    number: u32,
    n: u64,
) -> Result<(Option<Lists>, usize), IndexFault>
    requires within { at ≤ length bytes.now }
    requires few { n ≤ MAX_KEYS }
    ensures value { Gives (λ x. (part_data x.0, drop x.1 bytes.now)) result
        (partition_at (length bytes.now) enc (shape_data shape) number n (drop at bytes.now)) }
    ensures under { IfOk result (λ x. IsUnder enc x.0) }
    ensures within { IfOk result (λ x. x.1 ≤ length bytes.now) }
{
    if n == 0 {
        return Ok((None, at));
    }
    let buckets = bucket_count(n, shape.c);
    let size = table_size(n, shape.alpha);
    let (pilots, at) = pilots_of(alloc, bytes, at, enc, number, buckets)?;
    let (free, at) = free_of(alloc, bytes, at, number, n, size)?;
    let lists = Lists {
        n,
        pilots,
        free,
        buckets: BucketDivisors::new(buckets),
        size: Divisor::new(size),
    };
    Ok((Some(lists), at))
}

// The partitions that have so many keys each, and the place after them.
pub(crate) fn partitions_of(
    alloc: Global,
    bytes: &[u8],
    at: usize,
    enc: Encoding,
    shape: Shape,
    counts: &[u64],
) -> Result<(Vec<Option<Lists>>, usize), IndexFault>
    requires within { at ≤ length bytes.now }
    requires few { length counts.now ≤ 2 ^ 20 }
    requires small { below_len (MAX_KEYS + 1) counts.now ≡ length counts.now }
    ensures value { Gives (λ x. (parts_data x.0.items, drop x.1 bytes.now)) result
        (partitions_at (length bytes.now) enc (shape_data shape) 0 counts.now (drop at bytes.now)) }
    ensures under { IfOk result (λ x. All (IsUnder enc) x.0.items) }
    ensures within { IfOk result (λ x. x.1 ≤ length bytes.now) }
{
    let mut parts = Vec::new(alloc);
    parts.reserve(counts.len())?;
    let mut place = at;
    for i in 0..counts.len() {
        let (lists, next) = lists_of(alloc, bytes, place, enc, shape, i as u32, counts[i])?;
        parts.push(lists)?;
        place = next;
    }
    Ok((parts, place))
}
