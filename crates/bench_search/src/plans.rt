// The plans that are searched.

ghost use Rattle.std.specs.Prelude.{◌≤◌};

use crate::parts::{invalid_input, out_of_memory};
use bucket_map::{
    MAX_KEYS, MAX_PILOTS, Map, Record, Shape, bucket_count, ordered_buckets, partitioned,
    table_size,
};
use pilot_search::Plan;
use std::alloc::Global;
use std::io;

// The seed of all hashes.
pub(crate) const SEED: u64 = 1;

// How many pilots may be tried for a bucket: as many as without words.
pub(crate) const PILOTS: u64 = 16_777_216;

// So many partitions a list is cut into.
const PARTITIONS: u32 = 64;

// Another name is that of the usual shape.
pub(crate) fn shape_of(name: &str) -> Shape {
    match name {
        "lean" => lean(),
        "tight" => tight(),
        _ => usual(),
    }
}

// The shape that a list has without words.
pub(crate) fn usual() -> Shape {
    Shape {
        alpha: 98,
        c: 700,
        map: Map::Skewed,
    }
}

// Few buckets in a full table.
fn lean() -> Shape {
    Shape {
        alpha: 99,
        c: 300,
        map: Map::Skewed,
    }
}

// Fewer buckets still.
fn tight() -> Shape {
    Shape {
        alpha: 99,
        c: 200,
        map: Map::Skewed,
    }
}

// The plan of some records.
pub(crate) fn plan_of(
    alloc: Global,
    records: &[Record],
    shape: Shape,
    limit: u64,
) -> io::Result<Plan>
    requires some { 1 ≤ limit }
    requires bound { limit ≤ MAX_PILOTS }
{
    let n = records.len() as u64;
    if n == 0 || n > MAX_KEYS {
        return Err(invalid_input());
    }
    match ordered_buckets(alloc, records, shape.map, bucket_count(n, shape.c)) {
        Ok(buckets) => Ok(Plan {
            seed: SEED,
            size: table_size(n, shape.alpha),
            limit,
            buckets,
        }),
        Err(_) => Err(out_of_memory()),
    }
}

// The plans of all partitions of some records.
pub(crate) fn plans_of_partitions(alloc: Global, records: &[Record]) -> io::Result<Vec<Plan>> {
    let cut = match partitioned(alloc, records, PARTITIONS) {
        Ok(cut) => cut,
        Err(_) => return Err(out_of_memory()),
    };
    let mut plans = Vec::new(alloc);
    for partition in 0..cut.len() {
        plans.push(plan_of(alloc, cut.records(partition), usual(), PILOTS)?)?;
    }
    Ok(plans)
}
