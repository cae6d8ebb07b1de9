// How large a table and how many buckets serve a list, and where a pair of hashes goes.

ghost use Rattle.std.specs.Prelude.{◌≡◌, ◌+◌, ◌*◌, ◌<◌, ◌≤◌};
ghost use Rattle.pthash.specs.Sizes.{table_size_of, bucket_count_of, front_count_of, skewed_bucket_of, bucket_of, partition_of};
ghost use Rattle.pthash.specs.declared.TheConstants.{MIN_ALPHA, MAX_ALPHA, MIN_C, MAX_C};

use pthash::{
    FRONT_HASHES, MAX_ALPHA, MAX_BUCKETS, MAX_C, MAX_KEYS, MAX_POSITIONS, MIN_ALPHA, MIN_C, Map,
};

/// How full the table is, `alpha` in percent, how many buckets there are, `c` in hundredths of the
/// keys over their logarithm, and how hashes are spread over them.
#[derive(Clone, Copy, Debug, PartialEq, Eq)]
pub struct Shape {
    pub alpha: u32,
    pub c: u32,
    pub map: Map,
    pub ghost alpha_low: { MIN_ALPHA ≤ alpha },
    pub ghost alpha_high: { alpha ≤ MAX_ALPHA },
    pub ghost c_low: { MIN_C ≤ c },
    pub ghost c_high: { c ≤ MAX_C },
}

/// The number of positions of the table of `n` keys, of which `alpha` percent are taken.
pub fn table_size(n: u64, alpha: u32) -> u64
    requires few { n ≤ MAX_KEYS }
    requires alpha_low { MIN_ALPHA ≤ alpha }
    requires alpha_high { alpha ≤ MAX_ALPHA }
    ensures value { result ≡ table_size_of n alpha }
    ensures holds_all { n ≤ result }
    ensures some { 0 < n → 1 ≤ result }
    ensures bound { result ≤ MAX_POSITIONS }
{
    let size = (100 * n).div_ceil(u64::from(alpha));
    if size.is_power_of_two() {
        size + 1
    } else {
        size
    }
}

/// The number of buckets of `n` keys: `c` hundredths of `n` over its logarithm to base 2.
pub fn bucket_count(n: u64, c: u32) -> u64
    requires few { n ≤ MAX_KEYS }
    requires c_low { MIN_C ≤ c }
    requires c_high { c ≤ MAX_C }
    ensures value { result ≡ bucket_count_of n c }
    ensures none { n ≡ 0 → result ≡ 0 }
    ensures some { 0 < n → 1 ≤ result }
    ensures bound { result ≤ MAX_BUCKETS }
{
    if n == 0 {
        return 0;
    }
    let log = u64::from(n.ilog2());
    (u64::from(c) * n).div_ceil(100 * log.max(1))
}

/// How many of `m` buckets are front buckets, to which three fifths of the keys go.
#[inline]
pub fn front_count(m: u64) -> u64
    requires { m ≤ MAX_BUCKETS }
    ensures value { result ≡ front_count_of m }
    ensures bound { result ≤ m }
{
    3 * m / 10
}

/// The bucket, of `m`, of a key with the first hash `a`.
#[inline]
pub fn bucket_of(map: Map, a: u64, m: u64) -> u64
    requires some { 1 ≤ m }
    requires bound { m ≤ MAX_BUCKETS }
    ensures value { result ≡ bucket_of map a m }
    ensures below { result < m }
{
    match map {
        Map::Skewed => skewed_bucket(a, m),
        Map::Uniform => a % m,
    }
}

#[inline]
fn skewed_bucket(a: u64, m: u64) -> u64
    requires some { 1 ≤ m }
    requires bound { m ≤ MAX_BUCKETS }
    ensures value { result ≡ skewed_bucket_of a m }
    ensures below { result < m }
{
    let front = front_count(m);
    if a < FRONT_HASHES && front > 0 {
        a % front
    } else {
        front + a % (m - front)
    }
}

/// The partition, of `parts`, of a key with the hashes `a` and `b`.
#[inline]
pub fn partition_of(a: u64, b: u64, parts: u32) -> u32
    requires { 1 ≤ parts }
    ensures value { result ≡ partition_of a b parts }
    ensures below { result < parts }
{
    ((u128::from(a ^ b) * u128::from(parts)) >> 64) as u32
}
