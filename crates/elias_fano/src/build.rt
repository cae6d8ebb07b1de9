// The bits of a list, made of its values.
ghost use Rattle.std.specs.Prelude.{◌≡◌, ◌/◌, ◌^◌, ◌<◌, ◌≤◌, true, length, IfOk};
ghost use Rattle.elias_fano.specs.Spelling.{last_of, rises, high_bits};

use bit_vector::{BitVec, NoMemory};
use std::alloc::Global;

/// A one for each value, as far on as what is above its low bits says.
pub fn high_part(alloc: Global, values: &[u64], width: u32) -> Result<BitVec, NoMemory>
    requires rising { rises 0 values.now ≡ true }
    requires few { length values.now ≤ 2 ^ 36 }
    requires wide { width < 64 }
    requires few_high { last_of 0 values.now / 2 ^ width ≤ 2 ^ 37 }
    ensures { IfOk result (λ b. b ≡ high_bits width values.now) }
{
    let len = values.len() as u64 + (last_value(values) >> width) + 1;
    let mut high = BitVec::zeros(alloc, len)?;
    for (i, value) in values.iter().enumerate() {
        high.set((*value >> width) + i as u64);
    }
    Ok(high)
}

/// The last value, 0 if there is none.
pub fn last_value(values: &[u64]) -> u64
    ensures { result ≡ last_of 0 values.now }
{
    match values {
        [] => 0,
        [.., last] => *last,
    }
}
