// A partition is built of records, and each of them has a number of its own in it.
ghost use Rattle.std.specs.Prelude.{◌≡◌, ◌<◌, ◌≤◌, true, length, map, All, IfOk, IfSome};
ghost use Rattle.pthash.specs.declared.TheConstants.{MAX_KEYS, MAX_PILOTS};
ghost use Rattle.pthash.specs.Search.{is_distinct};
ghost use Rattle.build_outcome.specs.PartLaws.{pair_number};

use bucket_map::{Map, NoMemory, Record, Shape};
use murmur64::HashPair;
use part_function::{How, Part, build_part};
use std::alloc::Global;
use std::sync::Wait;
use std::thread::Threads;
use turn_search::FreeGate;

/// The numbers of some records in the partition that is built of them, in the order of the records,
/// or `None` where some bucket has no pilot.
pub fn numbers_of_records<R: Threads + Wait + Sync>(
    rt: &R,
    alloc: Global,
    records: &[Record],
    shape: Shape,
    seed: u64,
    limit: u64,
) -> Result<Option<Vec<u64>>, NoMemory>
    requires few { length records.now ≤ MAX_KEYS }
    requires some_pilot { 1 ≤ limit }
    requires few_pilots { limit ≤ MAX_PILOTS }
    ensures len { IfOk result
        (λ found. IfSome found (λ v. length v.items ≡ length records.now)) }
    ensures distinct { IfOk result (λ found. IfSome found (λ v. is_distinct v.items ≡ true)) }
    ensures below { IfOk result
        (λ found. IfSome found (λ v. All (λ number. number < length records.now) v.items)) }
{
    match build_part(
        rt,
        alloc,
        records,
        shape,
        seed,
        limit,
        How::Alone,
        &FreeGate,
    )? {
        Ok(part) => {
            let numbers = numbers_in(alloc, &part, records, shape.map, seed)?;
            Ok(Some(numbers))
        }
        Err(_) => Ok(None),
    }
}

// The number of each record in a partition.
fn numbers_in(
    alloc: Global,
    part: &Part,
    records: &[Record],
    spread: Map,
    seed: u64,
) -> Result<Vec<u64>, NoMemory>
    requires { 0 < length records.now → 0 < part.now.n }
    ensures { IfOk result
        (λ v. v.items ≡ map (λ r. pair_number spread seed part.now r.a r.b) records.now) }
{
    let mut numbers = Vec::new(alloc);
    for record in records {
        let pair = HashPair {
            a: record.a,
            b: record.b,
        };
        let number = part.value(spread, pair, seed).unwrap();
        numbers.push(number)?;
    }
    Ok(numbers)
}
