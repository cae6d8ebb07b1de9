// The ones of a selector are counted.
ghost use Rattle.std.specs.Prelude.{◌≡◌};
ghost use Rattle.bit_vector.specs.Bits.{ones};

use bit_vector::Selector;

/// How many bits are set.
pub fn set_bits(selector: &Selector) -> u64
    ensures { result ≡ ones selector.now }
{
    selector.rank1(selector.bits().len())
}
