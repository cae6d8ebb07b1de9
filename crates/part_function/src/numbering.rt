// Pilots by bucket number.

ghost use Rattle.std.specs.Prelude.{◌≡◌, ◌<◌, ℕ, length, replicate, IfOk};
ghost use Rattle.pthash.specs.Order.{bucket_at};
ghost use Rattle.pthash.specs.ByBucket.{pilots_by_number};

use pilot_search::Plan;
use std::alloc::{AllocError, Global};

// The pilots of `m` buckets by number, from the pilots by rank. The plan and the pilots by rank are let go of.
pub(crate) fn by_number(
    alloc: Global,
    plan: Plan,
    pilots: Vec<u64>,
    m: u64,
) -> Result<Vec<u64>, AllocError>
    requires one_a_rank { length pilots.items ≡ length plan.buckets }
    requires below { (rank : ℕ) → rank < length plan.buckets →
        (bucket_at plan.buckets rank).number < m }
    ensures { IfOk result (λ v. v.items ≡ pilots_by_number plan.buckets pilots.items m) }
{
    numbered(alloc, &plan, &pilots, m)
}

fn numbered(alloc: Global, plan: &Plan, pilots: &[u64], m: u64) -> Result<Vec<u64>, AllocError>
    requires one_a_rank { length pilots.now ≡ length plan.now.buckets }
    requires below { (rank : ℕ) → rank < length plan.now.buckets →
        (bucket_at plan.now.buckets rank).number < m }
    ensures { IfOk result (λ v. v.items ≡ pilots_by_number plan.now.buckets pilots.now m) }
{
    let mut by_number = zeros(alloc, m as usize)?;
    for rank in (0..plan.ranks()).rev() {
        by_number[plan.bucket(rank) as usize] = pilots[rank as usize];
    }
    Ok(by_number)
}

// This many zeros.
fn zeros(alloc: Global, count: usize) -> Result<Vec<u64>, AllocError>
    ensures { IfOk result (λ v. v.items ≡ replicate count 0) }
{
    vec![in alloc; 0; count]
}
