// What a dictionary and its indexes must keep.
ghost use Rattle.std.specs.Prelude.{◌≡◌, IfOk, IsTrue};
ghost use Rattle.pilot_codecs.specs.Reading.{rise_len, are_below, are_used};

use crate::compact::Compact;
use bit_vector::NoMemory;
use std::alloc::Global;

/// How many numbers stand at the front that are each above the one before.
pub fn rise(entries: &[u64]) -> usize
    ensures value { result ≡ rise_len entries.now }
{
    for i in 1..entries.len() {
        if entries[i] <= entries[i - 1] {
            return i;
        }
    }
    entries.len()
}

/// Whether each index is below the size, and if so whether each number below the size is an index,
/// in one pass over the indexes.
pub fn below_and_used(
    alloc: Global,
    places: &Compact,
    size: usize,
) -> Result<(bool, bool), NoMemory>
    ensures below { IfOk result (λ b. b.0 ≡ are_below size places.now) }
    ensures used { IfOk result (λ b. IsTrue b.0 → b.1 ≡ are_used size places.now) }
{
    let mut used = vec![in alloc; false; size]?;
    if !places.mark(used.as_mut_slice()) {
        return Ok((false, false));
    }
    Ok((true, !used.contains(&false)))
}
