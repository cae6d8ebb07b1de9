// A list under an encoding is written between other bytes and read there again.
ghost use Rattle.std.specs.Prelude.{◌≡◌, ◌≤◌, ◌<◌, ◌^◌, ◌++◌, ℕ, List, length, slice_index, Err, IfOk, OnErr};
ghost use Rattle.std.specs.List.{slice_get};
ghost use Rattle.elias_fano.specs.declared.fault.ReadErr.TheVariants as errors;
ghost use Rattle.pilot_codecs.specs.Spelling.{pair_text};
ghost use Rattle.pilot_codecs.specs.Encoded.{IsSpelled};

use pilot_codecs::{Encoding, NoMemory, Pilots, ReadErr};
use std::alloc::Global;

/// A value of a list that is encoded, written between other bytes and read there again.
pub fn value_read_again(
    alloc: Global,
    before: &[u8],
    after: &[u8],
    values: &[u64],
    enc: Encoding,
    i: u64,
) -> Result<Option<u64>, ReadErr>
    requires few { length values.now ≤ 2 ^ 30 }
    requires small { (k : ℕ) → slice_index values.now k < 2 ^ 32 }
    ensures value { IfOk result (λ v. v ≡ slice_get values.now i) }
    // What is written has no fault.
    ensures err { OnErr result (result ≡ Err errors.NoMemory) }
{
    let list = Pilots::encode(alloc, values, enc)?;
    let bytes = between(alloc, before, &list, after)?;
    value_at(alloc, &bytes, before.len(), list.len(), enc, i)
}

// The spelling of a list between other bytes.
fn between(alloc: Global, before: &[u8], list: &Pilots, after: &[u8]) -> Result<Vec<u8>, NoMemory>
    ensures { IfOk result (λ bytes. bytes.items
        ≡ before.now ++ pair_text list.now.enc list.now.values ++ after.now) }
{
    let mut bytes = Vec::from_slice(alloc, before)?;
    list.write(&mut bytes)?;
    bytes.extend_from_slice(after)?;
    Ok(bytes)
}

// A value of the list that is spelled at a place.
fn value_at(
    alloc: Global,
    bytes: &[u8],
    at: usize,
    count: u64,
    enc: Encoding,
    i: u64,
) -> Result<Option<u64>, ReadErr>
    requires within { at ≤ length bytes.now }
    requires few { count ≤ 2 ^ 30 }
    ensures value { (vs : List ℕ) (next : ℕ) → IsSpelled bytes.now at count enc vs next
        → IfOk result (λ v. v ≡ slice_get vs i) }
    ensures err { (vs : List ℕ) (next : ℕ) → IsSpelled bytes.now at count enc vs next
        → OnErr result (result ≡ Err errors.NoMemory) }
{
    let (list, _) = Pilots::read(alloc, bytes, at, count, enc)?;
    Ok(list.get(i))
}
