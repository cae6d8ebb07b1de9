// The value of a pair of hashes in a partition, and of a pair or a key in an index.
ghost use Rattle.std.specs.Prelude.{◌≡◌, ◌<◌, IfSome};
ghost use Rattle.build_outcome.specs.Values.{position_value, pair_position, pair_value, value_of};
ghost use Rattle.build_outcome.specs.Validity.{IsValidIndex};
ghost use Rattle.index_file.specs.Held.{held_data, IsHeld};
ghost use Rattle.index_file.specs.Lists.{lists_data};

use crate::held::Held;
use crate::lists::Lists;
use bucket_map::{Map, partition_of};
use murmur64::{HashPair, hash_pair, pilot_hash};

// The value of a pair of hashes in a partition under a map.
#[inline]
pub(crate) fn value_in(lists: &Lists, map: Map, pair: HashPair, seed: u64) -> u64
    ensures { result ≡ position_value lists.now.n lists.now.free
        (pair_position map seed (lists_data lists.now) pair.a pair.b) }
{
    let bucket = lists.buckets.bucket(map, pair.a);
    let pilot = lists.pilots.get(bucket).unwrap();
    let position = lists.size.remainder(pair.b ^ pilot_hash(pilot, seed));
    if position < lists.n {
        return position;
    }
    lists.free.get(position - lists.n).unwrap()
}

// The value of a pair of hashes in an index.
#[inline]
pub(crate) fn value_of_pair(held: &Held, pair: HashPair) -> Option<u64>
    requires valid { IsValidIndex (held_data held.now) }
    requires beside { IsHeld held.now }
    ensures value { result ≡ pair_value (held_data held.now) pair.a pair.b }
    ensures below { IfSome result (λ value. value < held.now.n) }
{
    let q = partition_of(pair.a, pair.b, held.parts.len() as u32) as usize;
    match &held.parts[q] {
        None => None,
        Some(lists) => Some(held.starts[q] + value_in(lists, held.shape.map, pair, held.seed)),
    }
}

// The value of a key.
#[inline]
pub(crate) fn value_of_key(held: &Held, key: &[u8]) -> Option<u64>
    requires valid { IsValidIndex (held_data held.now) }
    requires beside { IsHeld held.now }
    ensures { result ≡ value_of (held_data held.now) key.now }
{
    value_of_pair(held, hash_pair(key, held.seed))
}
