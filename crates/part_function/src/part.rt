// A partition that was built, and the values that it gives.

ghost use Rattle.std.specs.Prelude.{◌≡◌, ◌<◌, [], length, None, IfOk, IfSome, ◌↔◌};
ghost use Rattle.build_outcome.specs.Index.{PartData};
ghost use Rattle.build_outcome.specs.Values.{part_size, position_value, part_value};
ghost use Rattle.part_function.specs.Parts.{IsPart};

use bucket_map::{BucketDivisors, Map, NoMemory};
use divisor::Divisor;
use elias_fano::EliasFano;
use murmur64::{HashPair, pilot_hash};
use std::alloc::Global;
use std::marker::Model;

/// A partition: how many keys it has, the pilots of its buckets by number, and its free list.
#[derive(Drop)]
pub struct Part {
    pub n: u64,
    pub pilots: Vec<u64>,
    pub free: EliasFano,
    buckets: BucketDivisors,
    positions: Divisor,
}

impl Model for Part {
    ghost use Rattle.build_outcome.specs.Index.{PartData};
    ghost use Rattle.part_function.specs.Parts.{IsHeldPart};

    ghost Value = { PartData };

    ghost view = { λ a. record { n = a.n; pilots = a.pilots.items; free = a.free } };

    ghost invariant = { λ a. IsHeldPart
        (record { n = a.n; pilots = a.pilots.items; free = a.free }) a.buckets a.positions };
}

impl Part {
    /// A partition of `n` keys with these pilots by bucket number and this free list.
    pub fn new(n: u64, pilots: Vec<u64>, free: EliasFano) -> Self
        requires { IsPart (record { n = n; pilots = pilots.items; free = free }) }
        ensures { result ≡ record { n = n; pilots = pilots.items; free = free } }
    {
        let buckets = BucketDivisors::new((pilots.len() as u64).max(1));
        let positions = Divisor::new((n + free.len()).max(1));
        Self {
            n,
            pilots,
            free,
            buckets,
            positions,
        }
    }

    /// A partition without a key.
    pub fn empty(alloc: Global) -> Result<Self, NoMemory>
        ensures { IfOk result (λ part. part ≡ record { n = 0; pilots = []; free = [] }) }
    {
        match EliasFano::build(alloc, &[]) {
            Ok(free) => Ok(Self::new(0, Vec::new(alloc), free)),
            Err(_) => Err(NoMemory),
        }
    }

    /// The number of its buckets.
    pub fn bucket_count(&self) -> u64
        ensures { result ≡ length self.now.pilots }
    {
        self.pilots.len() as u64
    }

    /// The number of positions of its table.
    pub fn table_size(&self) -> u64
        ensures { result ≡ part_size self.now }
    {
        self.n + self.free.len()
    }

    /// The value of a pair of hashes at the partition's seed, under the map by which it was built.
    #[inline]
    pub fn value(&self, map: Map, pair: HashPair, seed: u64) -> Option<u64>
        ensures value { result ≡ part_value map seed self.now pair.a pair.b }
        ensures none { (result ≡ None) ↔ (self.now.n ≡ 0) }
        ensures below { IfSome result (λ value. value < self.now.n) }
    {
        if self.n == 0 {
            return None;
        }
        let bucket = self.buckets.bucket(map, pair.a);
        let hash = pilot_hash(self.pilots[bucket as usize], seed);
        let position = self.positions.remainder(pair.b ^ hash);
        Some(self.position_value(position))
    }

    // The value of a position of the table.
    #[inline]
    fn position_value(&self, position: u64) -> u64
        requires { position < part_size self.now }
        ensures { result ≡ position_value self.now.n self.now.free position }
    {
        if position < self.n {
            position
        } else {
            self.free.get(position - self.n).unwrap()
        }
    }
}
