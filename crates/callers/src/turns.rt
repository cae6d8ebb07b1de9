// A plan is searched by turns.
ghost use Rattle.std.specs.Prelude.{IfOk, IfSome};
ghost use Rattle.pilot_search.specs.Outcome.{IsPlaced};

use bucket_map::NoMemory;
use pilot_search::{Placed, Plan};
use std::alloc::Global;
use std::sync::Wait;
use std::thread::Threads;
use turn_search::{FreeGate, search_turns};

/// The pilots of a plan that two workers search, or `None` where some bucket has none.
pub fn pilots_by_turns<R: Threads + Wait + Sync>(
    rt: &R,
    alloc: Global,
    plan: &Plan,
) -> Result<Option<Placed>, NoMemory>
    ensures { IfOk result (λ found. IfSome found (λ placed. IsPlaced plan.now placed)) }
{
    Ok(search_turns(rt, alloc, plan, 2, &FreeGate)?.ok())
}
