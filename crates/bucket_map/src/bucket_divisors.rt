// The bucket of a first hash, without a division for each.

ghost use Rattle.std.specs.Prelude.{◌≡◌, ◌<◌, ◌≤◌};
ghost use Rattle.pthash.specs.Sizes.{bucket_of, skewed_bucket_of};

use crate::sizes::front_count;
use divisor::Divisor;
use pthash::{FRONT_HASHES, MAX_BUCKETS, Map};
use std::marker::Model;

/// A number of buckets, by which many first hashes are put into buckets: a contract sees it as that number.
#[derive(Debug, Drop)]
pub struct BucketDivisors {
    front_count: u64,
    // 1 where no bucket is a front bucket
    front: Divisor,
    back: Divisor,
    whole: Divisor,
}

impl Model for BucketDivisors {
    ghost use Rattle.std.specs.Prelude.{ℕ};
    ghost use Rattle.bucket_map.specs.Dividing.{DividesBuckets};

    ghost Value = { ℕ };

    ghost view = { λ a. a.whole };

    ghost invariant = { λ a. DividesBuckets a.front_count a.front a.back a.whole };
}

impl BucketDivisors {
    /// Takes three divisions, for the front buckets, the others and all of them.
    pub fn new(m: u64) -> Self
        requires some { 1 ≤ m }
        requires bound { m ≤ MAX_BUCKETS }
        ensures { result ≡ m }
    {
        let front_count = front_count(m);
        Self {
            front_count,
            front: Divisor::new(front_count.max(1)),
            back: Divisor::new(m - front_count),
            whole: Divisor::new(m),
        }
    }

    /// The bucket of a key with the first hash `a`.
    #[inline]
    pub fn bucket(&self, map: Map, a: u64) -> u64
        ensures value { result ≡ bucket_of map a self.now }
        ensures below { result < self.now }
    {
        match map {
            Map::Skewed => self.skewed_bucket(a),
            Map::Uniform => self.whole.remainder(a),
        }
    }

    #[inline]
    fn skewed_bucket(&self, a: u64) -> u64
        ensures value { result ≡ skewed_bucket_of a self.now }
        ensures below { result < self.now }
    {
        // The divisor is chosen before it is used: which one it is can't be foreseen, so no branch is to hang on it.
        let (before, divisor) = if a < FRONT_HASHES && self.front_count > 0 {
            (0, &self.front)
        } else {
            (self.front_count, &self.back)
        };
        before + divisor.remainder(a)
    }
}
