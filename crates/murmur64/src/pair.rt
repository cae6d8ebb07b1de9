// Both hashes of a key.
ghost use Rattle.std.specs.Prelude.{◌≡◌};
ghost use Rattle.pthash.specs.Hash.{first_hash, second_hash};

use crate::hash::murmur64;

/// The two hashes of a key: `a` gives its bucket, `b` its positions.
#[derive(Clone, Copy, Debug, PartialEq, Eq)]
pub struct HashPair {
    pub a: u64,
    pub b: u64,
}

/// Both hashes of a key at a seed; the second takes the seed with all bits flipped.
pub fn hash_pair(key: &[u8], seed: u64) -> HashPair
    ensures a { result.a ≡ first_hash key.now seed }
    ensures b { result.b ≡ second_hash key.now seed }
{
    HashPair {
        a: murmur64(key, seed),
        b: murmur64(key, !seed),
    }
}
