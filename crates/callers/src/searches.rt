// A plan is searched by one worker.
ghost use Rattle.std.specs.Prelude.{IfOk, IfSome};
ghost use Rattle.pilot_search.specs.Outcome.{IsPlaced};

use bucket_map::NoMemory;
use pilot_search::{Placed, Plan, place};
use std::alloc::Global;

/// The pilots of a plan, or `None` where some bucket has none.
pub fn pilots(alloc: Global, plan: &Plan) -> Result<Option<Placed>, NoMemory>
    ensures { IfOk result (λ found. IfSome found (λ placed. IsPlaced plan.now placed)) }
{
    Ok(place(alloc, plan)?.ok())
}
