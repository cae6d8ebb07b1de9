// Large buckets, whose pilots are found with stamps and without.

ghost use Rattle.std.specs.Prelude.{◌≤◌};

use super::*;
use crate::tests::{ODD, PILOTS, record};
use bucket_map::{Map, NoMemory, ordered_buckets};
use std::alloc::Global;
use std::test::Fail;

// A plan of one bucket with 150 members.
fn plan_of(alloc: Global, size: u64) -> Result<Plan, NoMemory>
    requires lower { 150 ≤ size }
    requires upper { size ≤ 5003 }
{
    let records = vec![in alloc; record(0, 0); 150]?;
    let buckets = ordered_buckets(alloc, &records, Map::Skewed, 1)?;
    Ok(Plan {
        seed: 1,
        size,
        limit: PILOTS,
        buckets,
    })
}

// A scratch made for a plan, one that came to serve it, and one without stamps.
fn scratch_of(alloc: Global, plan: &Plan, way: u32) -> Result<Scratch, NoMemory> {
    if way == 0 {
        return Scratch::new(alloc, plan);
    }
    let mut scratch = Scratch::with(alloc, 150)?;
    if way == 1 {
        scratch.serve(plan)?;
    }
    Ok(scratch)
}

// So many different members, each counted from `first` on.
fn members_from(alloc: Global, first: u64, count: u64) -> Result<Vec<u64>, NoMemory> {
    let mut members = Vec::new(alloc);
    for i in 0..count {
        members.push(first.wrapping_add(i).wrapping_mul(ODD))?;
    }
    Ok(members)
}

// The pilots are those of an independent program. One bucket tries more pilots than there are stamps.
#[test]
fn large_buckets_have_the_same_pilots_with_stamps(rt: HostRuntime) -> Result<(), Fail> {
    let cases: [(u64, u64, &[u64]); 2] = [(64, 180, &[372_178]), (150, 5003, &[18, 142, 133_631])];
    for (count, size, pilots) in cases {
        assert!(rt; 150 <= size);
        assert!(rt; size <= 5003);
        let plan = plan_of(rt.alloc(), size)?;
        for way in 0..3 {
            let mut scratch = scratch_of(rt.alloc(), &plan, way)?;
            let mut occupied = Occupancy::new(rt.alloc(), size)?;
            let mut first: u64 = 0;
            for pilot in pilots {
                let members = members_from(rt.alloc(), first, count)?;
                assert!(rt; 1 <= members.len());
                assert!(rt; members.len() as u64 <= scratch.members());
                let found = place_one(1, PILOTS, &members, &mut occupied, &mut scratch);
                assert_eq!(rt; found, Some(*pilot), "{count} members, scratch {way}");
                first = first.wrapping_add(count);
            }
        }
    }
    Ok(())
}
