// A list that doesn't fall is written between other bytes and read there again.
ghost use Rattle.std.specs.Prelude.{◌≡◌, ◌≤◌, ◌^◌, ◌++◌, ℕ, List, true, length, Err, IfOk, OnErr};
ghost use Rattle.std.specs.List.{slice_get};
ghost use Rattle.elias_fano.specs.declared.fault.ReadErr.TheVariants as errors;
ghost use Rattle.elias_fano.specs.Spelling.{rises, ef_text};
ghost use Rattle.elias_fano.specs.Reading.{IsSpelled};

use elias_fano::{EliasFano, NoMemory, ReadErr};
use std::alloc::Global;

/// A value of a list that is built, written between other bytes and read there again.
pub fn rising_read_again(
    alloc: Global,
    before: &[u8],
    after: &[u8],
    values: &[u64],
    i: u64,
) -> Result<Option<u64>, ReadErr>
    requires rising { rises 0 values.now ≡ true }
    requires few { length values.now ≤ 2 ^ 36 }
    ensures value { IfOk result (λ v. v ≡ slice_get values.now i) }
    // What is written has no fault.
    ensures err { OnErr result (result ≡ Err errors.NoMemory) }
{
    let list = EliasFano::build(alloc, values)?;
    let bytes = between(alloc, before, &list, after)?;
    value_at(alloc, &bytes, before.len(), list.len(), i)
}

// The spelling of a list between other bytes.
fn between(
    alloc: Global,
    before: &[u8],
    list: &EliasFano,
    after: &[u8],
) -> Result<Vec<u8>, NoMemory>
    ensures { IfOk result (λ bytes. bytes.items ≡ before.now ++ ef_text list.now ++ after.now) }
{
    let mut bytes = Vec::from_slice(alloc, before)?;
    list.write(&mut bytes)?;
    bytes.extend_from_slice(after)?;
    Ok(bytes)
}

// A value of the list that is spelled at a place.
fn value_at(
    alloc: Global,
    bytes: &[u8],
    at: usize,
    count: u64,
    i: u64,
) -> Result<Option<u64>, ReadErr>
    requires within { at ≤ length bytes.now }
    requires few { count ≤ 2 ^ 36 }
    ensures value { (vs : List ℕ) (next : ℕ) → IsSpelled bytes.now at count vs next
        → IfOk result (λ v. v ≡ slice_get vs i) }
    ensures err { (vs : List ℕ) (next : ℕ) → IsSpelled bytes.now at count vs next
        → OnErr result (result ≡ Err errors.NoMemory) }
{
    let (list, _) = EliasFano::read(alloc, bytes, at, count)?;
    Ok(list.get(i))
}
