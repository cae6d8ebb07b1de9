// The keys of a list as records, hashed at the same time.
ghost use Rattle.std.specs.Prelude.{◌≡◌, ◌≤◌, length, IfOk};
ghost use Rattle.pthash.specs.declared.TheConstants.{MAX_KEYS};
ghost use Rattle.pthash.specs.Records.{records_of};
ghost use Rattle.hem_build.specs.Shares.{IsShareOf, AreRecordsFrom};

use bucket_map::{NoMemory, Record};
use murmur64::hash_pair;
use pth_outside::KeyList;
use std::alloc::{AllocError, Global};
use std::thread;
use std::thread::Threads;

// The records of the keys at a seed, hashed in at most so many shares.
pub(crate) fn records_of_keys<R: Threads + Sync>(
    rt: &R,
    alloc: Global,
    keys: &KeyList,
    seed: u64,
    workers: u32,
) -> Result<Vec<Record>, NoMemory>
    requires some { 1 ≤ workers }
    requires few { length keys.now ≤ MAX_KEYS }
    ensures { IfOk result (λ records. records.items ≡ records_of keys.now seed) }
{
    let mut records = blank_records(alloc, keys.len() as usize)?;
    hash_all(rt, keys, seed, workers, records.as_mut_slice());
    Ok(records)
}

// As many records to write over.
pub(crate) fn blank_records(alloc: Global, n: usize) -> Result<Vec<Record>, AllocError>
    ensures { IfOk result (λ v. length v.items ≡ n) }
{
    let blank = Record {
        a: 0,
        b: 0,
        ordinal: 0,
    };
    vec![in alloc; blank; n]
}

// Writes the record of each key at its place. One share is hashed by the caller itself.
fn hash_all<R: Threads + Sync>(
    rt: &R,
    keys: &KeyList,
    seed: u64,
    workers: u32,
    records: &mut [Record],
)
    requires some { 1 ≤ workers }
    requires few { length keys.now ≤ MAX_KEYS }
    requires room { length records.old ≡ length keys.now }
    ensures { records.new ≡ records_of keys.now seed }
{
    if records.is_empty() {
        return;
    }
    let share = records.len().div_ceil(workers as usize);
    thread::for_each_chunk_mut(
        rt,
        records,
        share,
        &|start: usize, chunk: &mut [Record]|
            requires { IsShareOf keys.now start chunk.now }
            ensures { AreRecordsFrom keys.entry.now seed start chunk.entry.now chunk.exit.now }
        { hash_share(keys, seed, start as u64, chunk) },
    );
}

// Writes the records of the keys from a place on.
pub(crate) fn hash_share(keys: &KeyList, seed: u64, start: u64, share: &mut [Record])
    requires { IsShareOf keys.now start share.old }
    ensures { AreRecordsFrom keys.now seed start share.old share.new }
{
    for i in 0..share.len() {
        let place = start + i as u64;
        let pair = hash_pair(keys.key(place), seed);
        share[i] = Record {
            a: pair.a,
            b: pair.b,
            ordinal: place,
        };
    }
}
