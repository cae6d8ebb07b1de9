// An index: lookups, and what its file says of it.
ghost use Rattle.std.specs.Prelude.{◌≡◌, ◌<◌, ◌≤◌, ◌^◌, ◌↔◌, ◌++◌, length, take, sum_by, Some, None, option_map, IfSome, OnOk};
ghost use Rattle.pthash.specs.Sizes.{partition_of};
ghost use Rattle.bucket_map.specs.ShapeData.{shape_data};
ghost use Rattle.build_outcome.specs.Values.{part_size, part_at, pair_value, value_of};
ghost use Rattle.index_text.specs.Text.{version_of, index_text};
ghost use Rattle.build_outcome.specs.Validity.{IsMark, IsValidIndex};
ghost use Rattle.index_file.specs.Encoded.{EncodedIndex, keys_beside, marked};
ghost use Rattle.index_file.specs.Held.{encoded_of, parts_data, IsKept};
ghost use Rattle.index_file.specs.Lists.{part_data};
ghost use Rattle.pthash.specs.declared.TheConstants.{MAX_POSITIONS, MAX_BUCKETS};

use crate::held::Held;
use crate::lists::Lists;
use crate::values::{value_of_key, value_of_pair};
use crate::writing::put_file;
use bucket_map::Shape;
use build_outcome::KeyMark;
use index_text::{MARKED, UNMARKED};
use murmur64::HashPair;
use pilot_codecs::{Encoding, NoMemory};
use std::marker::Model;

/// An index that was read: a contract sees the index with its encoding.
#[derive(Drop)]
pub struct Index {
    held: Held,
    bytes: u64,
}

impl Model for Index {
    ghost use Rattle.index_file.specs.Encoded.{EncodedIndex};
    ghost use Rattle.index_file.specs.Held.{encoded_of, IsKept};

    ghost Value = { EncodedIndex };

    ghost view = { λ a. encoded_of a.held };

    ghost invariant = { λ a. IsKept a.held a.bytes };
}

/// What the file of an index says of it.
#[derive(Clone, Copy, Debug, PartialEq, Eq)]
pub struct Head {
    /// The version of the file that was read.
    pub version: u8,
    pub seed: u64,
    /// The number of keys.
    pub n: u64,
    pub shape: Shape,
    /// The number of partitions.
    pub parts: u32,
    pub enc: Encoding,
    /// The positions of all tables.
    pub size: u64,
    /// The buckets of all partitions.
    pub buckets: u64,
    /// The entries of all free lists.
    pub free: u64,
    /// The length of the file.
    pub bytes: u64,
    pub mark: Option<KeyMark>,
}

// The sums over the partitions.
#[derive(Drop)]
struct Totals {
    size: u64,
    buckets: u64,
    free: u64,
}

// The sums of one partition.
fn sums_of(part: &Option<Lists>) -> Totals
    ensures size { result.size ≡ part_size (part_data part.now) }
    ensures buckets { result.buckets ≡ length (part_data part.now).pilots }
    ensures free { result.free ≡ length (part_data part.now).free }
    ensures few_positions { result.size ≤ MAX_POSITIONS }
    ensures few_buckets { result.buckets ≤ MAX_BUCKETS }
    ensures few_free { result.free ≤ MAX_POSITIONS }
{
    match part {
        None => Totals {
            size: 0,
            buckets: 0,
            free: 0,
        },
        Some(lists) => Totals {
            size: lists.size.value(),
            buckets: lists.pilots.len(),
            free: lists.free.len(),
        },
    }
}

// The sums over partitions.
fn add_up(parts: &[Option<Lists>]) -> Totals
    requires { length parts.now ≤ 2 ^ 20 }
    ensures size { result.size ≡ sum_by part_size (parts_data parts.now) }
    ensures buckets { result.buckets ≡ sum_by (λ p. length p.pilots) (parts_data parts.now) }
    ensures free { result.free ≡ sum_by (λ p. length p.free) (parts_data parts.now) }
{
    let mut sums = Totals {
        size: 0,
        buckets: 0,
        free: 0,
    };
    for i in 0..parts.len() {
        let here = sums_of(&parts[i]);
        sums = Totals {
            size: sums.size + here.size,
            buckets: sums.buckets + here.buckets,
            free: sums.free + here.free,
        };
    }
    sums
}

impl Index {
    pub(crate) fn from_held(held: Held, bytes: u64) -> Self
        requires { IsKept held bytes }
        ensures { result ≡ encoded_of held }
    {
        Self { held, bytes }
    }

    // Appends the file with a mark; on want of memory a part of it.
    pub(crate) fn put(&self, mark: KeyMark, out: &mut Vec<u8>) -> Result<(), NoMemory>
        ensures ok { OnOk result (out.new.items ≡ out.old.items
            ++ index_text (marked self.now.index mark) self.now.enc) }
        ensures fits { OnOk result (IsMark mark) }
        ensures valid { IsValidIndex self.now.index }
        ensures kept { take (length out.old.items) out.new.items ≡ out.old.items }
    {
        put_file(out, &self.held, mark)
    }

    /// The number of a key: for each key of the list that the index was built of one of its own;
    /// for a stranger any, or none. Takes no memory.
    pub fn lookup(&self, key: &[u8]) -> Option<u64>
        ensures value { result ≡ value_of self.now.index key.now }
        ensures none { (result ≡ None) ↔ (keys_beside self.now.index key.now ≡ 0) }
        ensures below { IfSome result (λ value. value < self.now.index.n) }
    {
        value_of_key(&self.held, key)
    }

    /// The number of a key with these hashes at the seed of the index, as `lookup` gives it.
    pub fn lookup_pair(&self, pair: HashPair) -> Option<u64>
        ensures value { result ≡ pair_value self.now.index pair.a pair.b }
        ensures none { let parts = self.now.index.parts in
            (result ≡ None) ↔ ((part_at parts (partition_of pair.a pair.b (length parts))).n ≡ 0) }
        ensures below { IfSome result (λ value. value < self.now.index.n) }
        ensures valid { IsValidIndex self.now.index }
    {
        value_of_pair(&self.held, pair)
    }

    /// What the file says of the index.
    pub fn head(&self) -> Head
        ensures version { result.version ≡ version_of self.now.index.mark }
        ensures seed { result.seed ≡ self.now.index.seed }
        ensures n { result.n ≡ self.now.index.n }
        ensures shape { shape_data result.shape ≡ self.now.index.shape }
        ensures parts { result.parts ≡ length self.now.index.parts }
        ensures enc { result.enc ≡ self.now.enc }
        ensures mark { result.mark ≡ self.now.index.mark }
        ensures valid { IsValidIndex self.now.index }

        // Sums over the partitions, and the length of the file.
        ensures size { result.size ≡ sum_by part_size self.now.index.parts }
        ensures buckets { result.buckets ≡ sum_by (λ p. length p.pilots) self.now.index.parts }
        ensures free { result.free ≡ sum_by (λ p. length p.free) self.now.index.parts }
        ensures bytes { result.bytes ≡ length (index_text self.now.index self.now.enc) }
    {
        let sums = add_up(&self.held.parts);
        Head {
            version: version_for(self.held.mark),
            seed: self.held.seed,
            n: self.held.n,
            shape: self.held.shape,
            parts: self.held.parts.len() as u32,
            enc: self.held.enc,
            size: sums.size,
            buckets: sums.buckets,
            free: sums.free,
            bytes: self.bytes,
            mark: self.held.mark,
        }
    }
}

// The version of the file of an index with this mark, or with none.
fn version_for(mark: Option<KeyMark>) -> u8
    ensures { result ≡ version_of mark }
{
    match mark {
        None => UNMARKED,
        Some(_) => MARKED,
    }
}
