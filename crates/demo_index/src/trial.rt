// An index that was built, under each encoding.
ghost use Rattle.std.specs.Prelude.{◌≡◌, ◌≤◌, Err, length, map, IfOk, OnErr};
ghost use Rattle.pthash.specs.declared.TheConstants.{MAX_KEYS};
ghost use Rattle.build_outcome.specs.Index.{IndexData};
ghost use Rattle.build_outcome.specs.IndexLaws.{key_number};
ghost use Rattle.index_text.specs.declared.fault.IndexFault.TheVariants as faults;
ghost use Rattle.index_text.specs.Text.{IsIndex};
ghost use Rattle.demo_index.specs.Encodings.{all_encodings};
ghost use Rattle.demo_index.specs.Trials.{sum_of_values, tried_of};

use crate::codes::encodings;
use hem_build::Built;
use index_file::{Encoding, Index, IndexFault, read_index, write_index};
use pth_outside::{KeyList, NoMemory};
use std::alloc::Global;

/// What an index comes to under an encoding.
#[derive(Clone, Copy, Debug, PartialEq, Eq)]
pub struct Tried {
    pub enc: Encoding,
    /// The length of its file.
    pub bytes: u64,
    /// The sum of the values of the keys in the index that was read again.
    pub sum: u64,
}

// The value of a key, or 0 where it has none.
fn number_of(index: &Index, key: &[u8]) -> u64
    ensures value { result ≡ key_number index.now.index key.now }
    ensures below { result ≤ index.now.index.n }
{
    match index.lookup(key) {
        Some(value) => value,
        None => 0,
    }
}

// The sum of the values of the keys.
fn sum_of(index: &Index, keys: &KeyList) -> u64
    requires few_keys { length keys.now ≤ MAX_KEYS }
    requires few_values { index.now.index.n ≤ MAX_KEYS }
    ensures { result ≡ sum_of_values index.now.index keys.now }
{
    let mut sum = 0;
    for i in 0..keys.len() {
        sum += number_of(index, keys.key(i));
    }
    sum
}

// The sum of the values of the keys in the index that a file is.
pub(crate) fn sum_in_file(alloc: Global, file: &[u8], keys: &KeyList) -> Result<u64, IndexFault>
    requires { length keys.now ≤ MAX_KEYS }
    ensures sum { (x : IndexData) (enc : Encoding) → IsIndex file.now x enc →
        IfOk result (λ sum. sum ≡ sum_of_values x keys.now) }
    // The file of an index has no fault.
    ensures err { (x : IndexData) (enc : Encoding) → IsIndex file.now x enc →
        OnErr result (result ≡ Err faults.NoMemory) }
{
    let index = read_index(alloc, file)?;
    Ok(sum_of(&index, keys))
}

// Writes the index in an encoding in place of what the file held, and reads it again.
fn try_encoding(
    alloc: Global,
    built: &Built,
    enc: Encoding,
    keys: &KeyList,
    file: &mut Vec<u8>,
) -> Result<Tried, IndexFault>
    requires { length keys.now ≤ MAX_KEYS }
    ensures ok { IfOk result (λ tried. tried ≡ tried_of built.now keys.now enc) }
    ensures err { OnErr result (result ≡ Err faults.NoMemory) }
{
    file.clear();
    write_index(built, enc, file)?;
    Ok(Tried {
        enc,
        bytes: file.len() as u64,
        sum: sum_in_file(alloc, file, keys)?,
    })
}

/// Writes an index in each encoding to memory, reads it again, and adds up the values of the keys: each
/// code alone, then each pair of a front and a back code, the back code changing fastest. The files come
/// one after another into one buffer.
pub fn try_encodings(alloc: Global, built: &Built, keys: &KeyList) -> Result<Vec<Tried>, NoMemory>
    requires { length keys.now ≤ MAX_KEYS }
    ensures { IfOk result (λ tried.
        tried.items ≡ map (tried_of built.now keys.now) all_encodings) }
{
    let mut all = Vec::new(alloc);
    let mut file = Vec::new(alloc);
    let encs = encodings(alloc)?;
    for i in 0..encs.len() {
        match try_encoding(alloc, built, encs[i], keys, &mut file) {
            Ok(tried) => all.push(tried)?,
            Err(_) => return Err(NoMemory),
        }
    }
    Ok(all)
}
