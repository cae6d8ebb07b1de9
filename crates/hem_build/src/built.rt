// An index that was built, and the values that it gives.
ghost use Rattle.std.specs.Prelude.{◌≡◌, ◌+◌, ◌<◌, ◌≤◌, ◌↔◌, ℕ, Some, None, length, take, slice_index, IfOk, IfSome};
ghost use Rattle.pthash.specs.declared.TheConstants.{MAX_KEYS};
ghost use Rattle.pthash.specs.Hash.{first_hash, second_hash};
ghost use Rattle.pthash.specs.Sizes.{partition_of};
ghost use Rattle.bucket_map.specs.ShapeData.{shape_data};
ghost use Rattle.build_outcome.specs.Index.{IndexData};
ghost use Rattle.build_outcome.specs.Validity.{IsValidIndex};
ghost use Rattle.build_outcome.specs.Values.{part_at, key_count, value_of};
ghost use Rattle.hem_build.specs.Starts.{AreStarts};

use bucket_map::{NoMemory, Shape, partition_of};
use build_outcome::KeyMark;
use murmur64::hash_pair;
use part_function::Part;
use std::alloc::{AllocError, Global};
use std::marker::Model;

/// An index: the seed that succeeded, how many keys there are, the shape, the partitions, and the mark of the keys.
#[derive(Drop)]
pub struct Built {
    pub seed: u64,
    pub n: u64,
    pub shape: Shape,
    pub parts: Vec<Part>,
    pub mark: KeyMark,
    // how many keys the partitions before each have
    starts: Vec<u64>,
}

impl Model for Built {
    ghost use Rattle.std.specs.Prelude.{Some};
    ghost use Rattle.bucket_map.specs.ShapeData.{shape_data};
    ghost use Rattle.build_outcome.specs.Index.{IndexData};
    ghost use Rattle.hem_build.specs.Starts.{IsHeldIndex};

    ghost Value = { IndexData };

    ghost view = { λ a. record {
      seed = a.seed;
      n = a.n;
      shape = shape_data a.shape;
      parts = a.parts.items;
      mark = Some a.mark;
    } };

    ghost invariant = { λ a. IsHeldIndex (record {
      seed = a.seed;
      n = a.n;
      shape = shape_data a.shape;
      parts = a.parts.items;
      mark = Some a.mark;
    }) a.starts.items };
}

impl Built {
    /// The index of `n` keys with these partitions.
    pub fn new(
        alloc: Global,
        seed: u64,
        n: u64,
        shape: Shape,
        parts: Vec<Part>,
        mark: KeyMark,
    ) -> Result<Self, NoMemory>
        requires { IsValidIndex (record {
          seed = seed;
          n = n;
          shape = shape_data shape;
          parts = parts.items;
          mark = Some mark;
        }) }
        ensures { IfOk result (λ built. built ≡ record {
          seed = seed;
          n = n;
          shape = shape_data shape;
          parts = parts.items;
          mark = Some mark;
        }) }
    {
        let starts = starts_of(alloc, &parts)?;
        Ok(Self {
            seed,
            n,
            shape,
            parts,
            mark,
            starts,
        })
    }

    /// The value of a key; those of the keys of the list are pairwise different.
    pub fn lookup(&self, key: &[u8]) -> Option<u64>
        ensures value { result ≡ value_of self.now key.now }
        ensures none { let seed = self.now.seed in let parts = self.now.parts in
            (result ≡ None) ↔ ((part_at parts (partition_of (first_hash key.now seed)
            (second_hash key.now seed) (length parts))).n ≡ 0) }
        ensures below { IfSome result (λ value. value < self.now.n) }
        ensures valid { IsValidIndex self.now }
    {
        let pair = hash_pair(key, self.seed);
        let number = partition_of(pair.a, pair.b, self.parts.len() as u32) as usize;
        let part = &self.parts[number];
        match part.value(self.shape.map, pair, self.seed) {
            Some(value) => Some(self.starts[number] + value),
            None => None,
        }
    }
}

// How many keys the partitions before each have.
fn starts_of(alloc: Global, parts: &[Part]) -> Result<Vec<u64>, AllocError>
    requires { key_count parts.now ≤ MAX_KEYS }
    ensures { IfOk result (λ starts. AreStarts parts.now starts.items) }
{
    let mut starts = Vec::with_capacity(alloc, parts.len())?;
    let mut total: u64 = 0;
    for i in 0..parts.len() {
        let part = &parts[i];
        starts.push(total)?;
        total += part.n;
    }
    Ok(starts)
}
