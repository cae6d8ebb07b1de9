// The hash of bytes, and that of a pilot.
ghost use Rattle.std.specs.Prelude.{◌≡◌, ◌<◌, length};
ghost use Rattle.pthash.specs.Hash.{folded, after_block, after_rest, last_mixing, hash_of, pilot_hash};

use byteorder::{ByteOrder, LittleEndian};
use pthash::MULTIPLIER;

// A number mixed with its own high bits.
#[inline]
fn fold_high(x: u64) -> u64
    ensures { result ≡ folded x }
{
    x ^ (x >> 47)
}

// The state after one more block of eight bytes.
#[inline]
fn mix_block(h: u64, block: u64) -> u64
    ensures { result ≡ after_block h block }
{
    let k = fold_high(block.wrapping_mul(MULTIPLIER)).wrapping_mul(MULTIPLIER);
    (h ^ k).wrapping_mul(MULTIPLIER)
}

// The state after the last bytes, which fill no block.
#[inline]
fn mix_rest(h: u64, rest: &[u8]) -> u64
    requires { length rest.now < 8 }
    ensures { result ≡ after_rest h rest.now }
{
    if rest.is_empty() {
        return h;
    }
    let number = LittleEndian::read_uint(rest, rest.len());
    (h ^ number).wrapping_mul(MULTIPLIER)
}

// The last mixing.
#[inline]
fn finish(h: u64) -> u64
    ensures { result ≡ last_mixing h }
{
    fold_high(fold_high(h).wrapping_mul(MULTIPLIER))
}

/// MurmurHash64A of the bytes at a seed, after Austin Appleby.
pub fn murmur64(bytes: &[u8], seed: u64) -> u64
    ensures { result ≡ hash_of bytes.now seed }
{
    let mut h = seed ^ (bytes.len() as u64).wrapping_mul(MULTIPLIER);
    let mut rest = bytes;
    while rest.len() >= 8 {
        h = mix_block(h, LittleEndian::read_u64(rest));
        rest = &rest[8..];
    }
    finish(mix_rest(h, rest))
}

/// The hash of a pilot, taken as its eight little-endian bytes.
#[inline]
pub fn pilot_hash(pilot: u64, seed: u64) -> u64
    ensures { result ≡ pilot_hash pilot seed }
{
    let h = seed ^ 8u64.wrapping_mul(MULTIPLIER);
    finish(mix_block(h, pilot))
}
