// The parts of a value: what stands above its low bits, and these.
ghost use Rattle.std.specs.Prelude.{◌≡◌, ◌+◌, ◌-◌, ◌*◌, ◌/◌, ◌^◌, ◌<◌, ◌≤◌, ◌↔◌, ◌⊎◌, length, take, drop};
ghost use Rattle.std.specs.Prelude.{slice_index, IsTrue};
ghost use Rattle.bit_vector.specs.Bits.{number_of};
ghost use Rattle.elias_fano.specs.Spelling.{low_width, last_of, rises};
ghost use Rattle.elias_fano.specs.Values.{values_of, AreParts};

use bit_vector::{BitVec, Selector};

/// How many low bits of each value stand apart.
pub fn width_of(count: u64, last: u64) -> u32
    ensures width { result ≡ low_width count last }
    ensures most { result < 64 }
    ensures few_high { 0 < count → last / 2 ^ result ≤ 2 * count }
{
    if count == 0 || last / count == 0 {
        return 0;
    }
    (last / count).ilog2()
}

// The low bits of a value. They are asked for before the place of its one is, so that the two waits for
// memory are one.
fn low_of(low: &BitVec, width: u32, i: u64) -> u64
    requires wide { width < 64 }
    requires few { i ≤ 2 ^ 36 }
    requires within { i * width + width ≤ length low.now }
    ensures { result ≡ number_of (take width (drop (i * width) low.now)) }
{
    low.get_bits(i * u64::from(width), width)
}

// The low bits of a value and of the next one, by one read where they are few.
fn lows_of(low: &BitVec, width: u32, i: u64) -> (u64, u64)
    requires wide { width < 64 }
    requires few { i < 2 ^ 36 }
    requires within { (i + 1) * width + width ≤ length low.now }
    ensures here { result.0 ≡ number_of (take width (drop (i * width) low.now)) }
    ensures next { result.1 ≡ number_of (take width (drop ((i + 1) * width) low.now)) }
{
    if width > 32 {
        return (low_of(low, width, i), low_of(low, width, i + 1));
    }
    low.get_two(i * u64::from(width), width)
}

/// What stands above the low bits of a value, and its low bits.
pub fn part_at(
    low: &BitVec,
    high: &Selector,
    width: u32,
    count: u64,
    last: u64,
    i: u64,
) -> (u64, u64)
    requires parts { AreParts count last width low.now high.now }
    requires within { i < count }
    ensures value { result.0 * 2 ^ width + result.1
        ≡ slice_index (values_of width low.now high.now) i }
    ensures low { result.1 < 2 ^ width }
{
    let low_here = low_of(low, width, i);
    let place = high.select1(i).unwrap();
    (place - i, low_here)
}

/// The parts of a value and of the next one, by one select.
pub fn two_parts(
    low: &BitVec,
    high: &Selector,
    width: u32,
    count: u64,
    last: u64,
    i: u64,
) -> ((u64, u64), (u64, u64))
    requires parts { AreParts count last width low.now high.now }
    requires within { i + 1 < count }
    ensures value { result.0.0 * 2 ^ width + result.0.1
        ≡ slice_index (values_of width low.now high.now) i }
    ensures low { result.0.1 < 2 ^ width }
    ensures next { result.1.0 * 2 ^ width + result.1.1
        ≡ slice_index (values_of width low.now high.now) (i + 1) }
    ensures next_low { result.1.1 < 2 ^ width }
{
    let (low_here, low_next) = lows_of(low, width, i);
    let place = high.select1(i).unwrap();
    let next = high.next1(place + 1).unwrap();
    ((place - i, low_here), (next - (i + 1), low_next))
}

// Whether a value is below another: by what is above the low bits, and then by these.
fn is_below(here: u64, low_here: u64, before: u64, low_before: u64) -> bool
    ensures { IsTrue result ↔ (here < before) ⊎ ((here ≡ before) × (low_here < low_before)) }
{
    // No branch hangs on which of the two it is.
    (here < before) | ((here == before) & (low_here < low_before))
}

/// Whether no value is below the one before it, by one walk over the high bits.
pub fn do_rise(low: &BitVec, high: &Selector, width: u32, count: u64, last: u64) -> bool
    requires { AreParts count last width low.now high.now }
    ensures { result ≡ rises 0 (values_of width low.now high.now) }
{
    let mut before = 0;
    let mut low_before = 0;
    // The place behind the one before.
    let mut from = 0;
    for i in 0..count {
        let low_here = low_of(low, width, i);
        let place = high.next1(from).unwrap();
        let here = place - i;
        if is_below(here, low_here, before, low_before) {
            return false;
        }
        before = here;
        low_before = low_here;
        from = place + 1;
    }
    true
}

/// Whether the last value is that number.
pub fn do_end(low: &BitVec, high: &Selector, width: u32, count: u64, last: u64) -> bool
    requires parts { AreParts count last width low.now high.now }
    requires none { count ≡ 0 → last ≡ 0 }
    ensures { IsTrue result ↔ last_of 0 (values_of width low.now high.now) ≡ last }
{
    if count == 0 {
        return true;
    }
    let (here, low_here) = part_at(low, high, width, count, last, count - 1);
    here == last >> width && low_here == last & ((1 << width) - 1)
}
