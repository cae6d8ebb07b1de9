// What a search is given.

ghost use Rattle.std.specs.Prelude.{◌≡◌, ◌<◌, ◌≤◌, ◌^◌, length};
ghost use Rattle.pthash.specs.Order.{bucket_at, most_members};
ghost use Rattle.pthash.specs.Search.{IsSearchable};

use bucket_map::Buckets;
use std::marker::Model;

/// What a search is given: the pilots' seed, the table's size, how many pilots may be tried, and the buckets by rank.
#[derive(Drop)]
pub struct Plan {
    pub seed: u64,
    pub size: u64,
    pub limit: u64,
    pub buckets: Buckets,
}

impl Model for Plan {
    ghost use Rattle.pthash.specs.Search.{SearchPlan, IsSearchable};

    ghost Value = { SearchPlan };

    ghost view = { λ a.
        record { seed = a.seed; size = a.size; limit = a.limit; buckets = a.buckets } };

    ghost invariant = { λ a. IsSearchable
        (record { seed = a.seed; size = a.size; limit = a.limit; buckets = a.buckets }) };
}

impl Plan {
    /// The seed of the pilots' hashes.
    #[inline]
    pub fn seed(&self) -> u64
        ensures value { result ≡ self.now.seed }
        ensures searchable { IsSearchable self.now }
    {
        self.seed
    }

    /// The number of positions of the table.
    #[inline]
    pub fn size(&self) -> u64
        ensures value { result ≡ self.now.size }
        ensures lower { 1 ≤ result }
        ensures upper { result ≤ 2 ^ 28 }
        ensures searchable { IsSearchable self.now }
    {
        self.size
    }

    /// The pilots below this number may be tried.
    #[inline]
    pub fn limit(&self) -> u64
        ensures value { result ≡ self.now.limit }
        ensures lower { 1 ≤ result }
        ensures upper { result < 2 ^ 32 }
        ensures searchable { IsSearchable self.now }
    {
        self.limit
    }

    /// The number of buckets, none of them empty.
    #[inline]
    pub fn ranks(&self) -> u64
        ensures value { result ≡ length self.now.buckets }
        ensures upper { result ≤ self.now.size }
        ensures searchable { IsSearchable self.now }
    {
        let buckets = &self.buckets;
        buckets.len()
    }

    /// The number of the bucket at a rank.
    #[inline]
    pub fn bucket(&self, rank: u64) -> u64
        requires { rank < length self.now.buckets }
        ensures { result ≡ (bucket_at self.now.buckets rank).number }
    {
        let buckets = &self.buckets;
        buckets.bucket(rank)
    }

    /// The second hashes of the keys of the bucket at a rank.
    #[inline]
    pub fn members(&self, rank: u64) -> &[u64]
        requires { rank < length self.now.buckets }
        ensures value { result.now ≡ (bucket_at self.now.buckets rank).members }
        ensures lower { 1 ≤ length result.now }
        ensures upper { length result.now ≤ most_members self.now.buckets }
        ensures searchable { IsSearchable self.now }
    {
        let buckets = &self.buckets;
        buckets.members(rank)
    }

    /// The member count of the largest bucket, or 0 where there is none.
    #[inline]
    pub fn largest(&self) -> u64
        ensures value { result ≡ most_members self.now.buckets }
        ensures upper { result ≤ self.now.size }
        ensures searchable { IsSearchable self.now }
    {
        let buckets = &self.buckets;
        buckets.largest()
    }
}
