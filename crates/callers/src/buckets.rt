// The first bucket of some records.
ghost use Rattle.std.specs.Prelude.{◌≡◌, ◌≤◌, ◌<◌, length, IfOk};
ghost use Rattle.pthash.specs.Order.{bucket_at, order_of};

use bucket_map::{MAX_BUCKETS, Map, NoMemory, Record, ordered_buckets};
use std::alloc::Global;

/// The member count of the first bucket, or 0 where there is none.
pub fn first_size(alloc: Global, records: &[Record], map: Map, m: u64) -> Result<u64, NoMemory>
    requires some { 1 ≤ m }
    requires bound { m ≤ MAX_BUCKETS }
    ensures { IfOk result (λ n. n ≡ length (bucket_at (order_of records.now map m) 0).members) }
{
    let buckets = ordered_buckets(alloc, records, map, m)?;
    if buckets.len() == 0 {
        return Ok(0);
    }
    Ok(buckets.members(0).len() as u64)
}
