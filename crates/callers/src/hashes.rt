// The position of a key, from its hash and that of a pilot.
ghost use Rattle.std.specs.Prelude.{◌≡◌, bit_xor, ◌%◌, ◌<◌};
ghost use Rattle.pthash.specs.Hash.{second_hash, pilot_hash};

use murmur64::{hash_pair, pilot_hash};

/// The position of a key in a table of `size` under a pilot.
pub fn position(key: &[u8], pilot: u64, seed: u64, size: u64) -> u64
    requires { 0 < size }
    ensures { result ≡ bit_xor (second_hash key.now seed) (pilot_hash pilot seed) % size }
{
    (hash_pair(key, seed).b ^ pilot_hash(pilot, seed)) % size
}
