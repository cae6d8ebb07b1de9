// The keys of a demonstration.
ghost use Rattle.std.specs.Prelude.{◌≡◌, length, IfOk};
ghost use Rattle.build_outcome.specs.BuiltLaws.{AreDistinctKeys};
ghost use Rattle.demo_index.specs.Keys.{demo_key, demo_keys_of};

use hex::encode_to_slice;
use murmur64::pilot_hash;
use pth_outside::{KeyList, NoMemory};
use std::alloc::Global;

// The key with a number at a seed. A pilot is hashed as its eight little-endian bytes, too.
fn key_of(number: u64, seed: u64) -> [u8; 16]
    ensures { result ≡ demo_key seed number }
{
    let hash = pilot_hash(number, seed);
    let mut digits = [0; 16];
    encode_to_slice(hash.to_be_bytes(), &mut digits).unwrap();
    digits
}

/// As many keys at a seed. Each is the hash of the eight little-endian bytes of its number, counted
/// from 0, in 16 lower-case hexadecimal digits.
pub fn demo_keys(alloc: Global, count: u64, seed: u64) -> Result<KeyList, NoMemory>
    ensures ok { IfOk result (λ keys. keys ≡ demo_keys_of count seed) }
    ensures count { IfOk result (λ keys. length keys ≡ count) }
    // No key comes twice.
    ensures distinct { IfOk result (λ keys. AreDistinctKeys keys) }
{
    let mut keys = KeyList::new(alloc);
    for number in 0..count {
        keys.push(&key_of(number, seed))?;
    }
    Ok(keys)
}
