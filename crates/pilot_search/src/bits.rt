// One bit of a run of 64-bit words.

ghost use Rattle.std.specs.Prelude.{◌≡◌, ◌*◌, ◌<◌, length};
ghost use Rattle.word_bits.specs.Bits.{is_set, set_bit};

// Whether the bit is set.
#[inline]
pub(crate) fn is_set(words: &[u64], place: u64) -> bool
    requires { place < 64 * length words.now }
    ensures { result ≡ is_set words.now 0 place }
{
    (words[(place / 64) as usize] >> (place % 64)) & 1 == 1
}

// Sets the bit, which may be set already.
#[inline]
pub(crate) fn set_bit(words: &mut [u64], place: u64)
    requires { place < 64 * length words.old }
    ensures { words.new ≡ set_bit words.old 0 place }
{
    words[(place / 64) as usize] |= 1 << (place % 64);
}
