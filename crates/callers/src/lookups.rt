// An index is read from bytes and a key is looked up, or it is written with a mark before.
ghost use Rattle.std.specs.Prelude.{◌≡◌, ℕ, List, Err, IfOk, OnErr};
ghost use Rattle.pilot_codecs.specs.declared.code.Encoding.{Encoding};
ghost use Rattle.build_outcome.specs.Index.{IndexData};
ghost use Rattle.build_outcome.specs.Values.{value_of};
ghost use Rattle.index_text.specs.declared.fault.IndexFault.TheVariants as faults;
ghost use Rattle.index_text.specs.Text.{IsIndex};

use index_file::{Index, IndexFault, KeyMark, read_index, write_marked};
use std::alloc::Global;

/// The number of a key in the index that these bytes are.
pub fn number_of_key(alloc: Global, bytes: &[u8], key: &[u8]) -> Result<Option<u64>, IndexFault>
    ensures value { (x : IndexData) (enc : Encoding) → IsIndex bytes.now x enc →
        IfOk result (λ number. number ≡ value_of x key.now) }
    // The file of an index has no fault.
    ensures err { (x : IndexData) (enc : Encoding) → IsIndex bytes.now x enc →
        OnErr result (result ≡ Err faults.NoMemory) }
{
    let index = read_index(alloc, bytes)?;
    Ok(index.lookup(key))
}

/// The number of a key in an index that is written with a mark, in whichever encoding it has, and read
/// again: the same as before.
pub fn number_read_again(
    alloc: Global,
    index: &Index,
    mark: KeyMark,
    key: &[u8],
) -> Result<Option<u64>, IndexFault>
    ensures value { IfOk result (λ number. number ≡ value_of index.now.index key.now) }
    ensures err { OnErr result (result ≡ Err faults.NoMemory) }
{
    let mut bytes = Vec::new(alloc);
    write_marked(index, mark, &mut bytes)?;
    number_of_key(alloc, &bytes, key)
}
