// Random input, the same in each run.
ghost use Rattle.std.specs.Prelude.{◌≡◌, ◌<◌, true, IfOk};
ghost use Rattle.elias_fano.specs.Spelling.{rises};

use std::alloc::{AllocError, Global};

// A generator of numbers: SplitMix64 (Steele, Lea and Flood, OOPSLA 2014).
#[derive(Drop)]
pub(crate) struct Numbers {
    pub(crate) state: u64,
}

impl Numbers {
    // The next number.
    pub(crate) fn next(&mut self) -> u64 {
        self.state = self.state.wrapping_add(0x9e37_79b9_7f4a_7c15);
        let z = (self.state ^ (self.state >> 30)).wrapping_mul(0xbf58_476d_1ce4_e5b9);
        let z = (z ^ (z >> 27)).wrapping_mul(0x94d0_49bb_1331_11eb);
        z ^ (z >> 31)
    }
}

// Values that don't fall, with random steps of 64 less `shift` bits.
pub(crate) fn rising(alloc: Global, count: u32, shift: u32) -> Result<Vec<u64>, AllocError>
    requires { shift < 64 }
    ensures { IfOk result (λ v. rises 0 v.items ≡ true) }
{
    let mut numbers = Numbers { state: 1 };
    let mut values = Vec::new(alloc);
    let mut total = 0u64;
    for _ in 0..count {
        total = total.saturating_add(numbers.next() >> shift);
        values.push(total)?;
    }
    Ok(values)
}
