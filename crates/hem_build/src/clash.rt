// The first clash of a list of keys.
ghost use Rattle.std.specs.Prelude.{◌≡◌, ◌≤◌, length, AllPairs, IfOk};
ghost use Rattle.std.specs.List.Sorted.{IsPermutation};
ghost use Rattle.pthash.specs.declared.TheConstants.{MAX_KEYS};
ghost use Rattle.bucket_map.specs.Clash.{IsNoLater};
ghost use Rattle.bucket_map.proofs.CallerLemmas.{IsClashAnswer};
ghost use Rattle.build_outcome.specs.Clash.{clash_of};

use crate::hashing::records_of_keys;
use bucket_map::{NoMemory, Record, least_clash, least_repeat};
use pth_outside::KeyList;
use rayon::prelude::par_sort_unstable_by_key;
use std::alloc::Global;
use std::thread::Threads;

// The first key that has the same pair of hashes as an earlier one, and the earliest such, the earlier one first.
pub(crate) fn first_clash<R: Threads + Sync>(
    rt: &R,
    alloc: Global,
    keys: &KeyList,
    seed: u64,
    workers: u32,
) -> Result<Option<(u64, u64)>, NoMemory>
    requires some { 1 ≤ workers }
    requires few { length keys.now ≤ MAX_KEYS }
    ensures { IfOk result (λ clash. clash ≡ clash_of keys.now seed) }
{
    let mut records = records_of_keys(rt, alloc, keys, seed, workers)?;
    Ok(clash_among(rt, records.as_mut_slice(), workers))
}

// The least clash of records, which are sorted for it; by threads where more than one may work.
fn clash_among<R: Threads + Sync>(
    rt: &R,
    records: &mut [Record],
    workers: u32,
) -> Option<(u64, u64)>
    ensures { IsClashAnswer records.old result }
{
    if workers > 1 {
        sort_by_threads(rt, records);
        return least_repeat(records);
    }
    least_clash(records)
}

fn sort_by_threads<R: Threads + Sync>(rt: &R, records: &mut [Record])
    ensures permutation { IsPermutation records.old records.new }
    ensures sorted { AllPairs IsNoLater records.new }
{
    par_sort_unstable_by_key(rt, records, |r| (r.a, r.b, r.ordinal));
}
