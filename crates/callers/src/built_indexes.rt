// An index that was built is written in an encoding behind what stands there, read again, and looked up.
ghost use Rattle.std.specs.Prelude.{◌≡◌, ◌≤◌, Some, Err, length, take, option_map, IfOk, IfSome, OnErr};
ghost use Rattle.pthash.specs.declared.TheConstants.{MAX_KEYS};
ghost use Rattle.settings.specs.Settings.{settings_data};
ghost use Rattle.build_outcome.specs.Index.{IndexData};
ghost use Rattle.build_outcome.specs.IndexLaws.{IsOneToOne};
ghost use Rattle.build_outcome.specs.Outcome.{outcome_of, built};
ghost use Rattle.build_outcome.specs.Values.{value_of};
ghost use Rattle.hem_build.specs.Rules.{rules_of};
ghost use Rattle.index_text.specs.declared.fault.IndexFault.TheVariants as faults;

use hem_build::{Built, Refusal, Settings, build_keys};
use index_file::{Encoding, Index, IndexFault, read_index, write_index};
use pth_outside::KeyList;
use std::alloc::Global;
use std::sync::Wait;
use std::thread::Threads;
use turn_search::Gate;

/// An index that was built, written in an encoding behind what stands there, and read again: the same.
pub fn index_read_again(
    alloc: Global,
    built: &Built,
    enc: Encoding,
    bytes: &mut Vec<u8>,
) -> Result<Index, IndexFault>
    ensures same { IfOk result (λ index. index.index ≡ built.now) }
    ensures enc { IfOk result (λ index. index.enc ≡ enc) }
    ensures kept { take (length bytes.old.items) bytes.new.items ≡ bytes.old.items }
    ensures err { OnErr result (result ≡ Err faults.NoMemory) }
{
    let start = bytes.len();
    write_index(built, enc, bytes)?;
    read_index(alloc, &bytes[start..])
}

/// The number of a key in what is read again: that which `Built::lookup` gives.
pub fn built_number_read_again(
    alloc: Global,
    built: &Built,
    enc: Encoding,
    bytes: &mut Vec<u8>,
    key: &[u8],
) -> Result<Option<u64>, IndexFault>
    ensures value { IfOk result (λ number. number ≡ value_of built.now key.now) }
    ensures err { OnErr result (result ≡ Err faults.NoMemory) }
{
    let index = index_read_again(alloc, built, enc, bytes)?;
    Ok(index.lookup(key))
}

/// The index of some keys, built, written and read again, or `None` where the build refuses them.
pub fn index_of_keys<R: Threads + Wait + Sync, G: Gate>(
    rt: &R,
    alloc: Global,
    keys: &KeyList,
    settings: &Settings,
    enc: Encoding,
    bytes: &mut Vec<u8>,
    gate: &G,
) -> Result<Option<Index>, IndexFault>
    requires some { 1 ≤ length keys.now }
    requires few { length keys.now ≤ MAX_KEYS }
    ensures one_to_one { IfOk result (λ found. IfSome found (λ index.
        IsOneToOne index.index keys.now)) }
    // Keys that are built are never refused.
    ensures found { let rules = rules_of (settings_data settings.now) in (x : IndexData) →
        outcome_of rules keys.now settings.now.seeds.items ≡ built x →
        IfOk result (λ found. option_map (λ index. index.index) found ≡ Some x) }
    ensures err { OnErr result (result ≡ Err faults.NoMemory) }
{
    match build_keys(rt, alloc, keys, settings, gate) {
        Ok(built) => {
            let index = index_read_again(alloc, &built, enc, bytes)?;
            Ok(Some(index))
        }
        Err(Refusal::NoMemory) => Err(IndexFault::NoMemory),
        Err(Refusal::RepeatedKey { .. }) => Ok(None),
        Err(Refusal::SeedsExhausted { .. }) => Ok(None),
    }
}
