// Whether a search is stuck at the latest at a bucket with two equal members, which no pilot parts.

use bucket_map::NoMemory;
use pilot_search::Plan;
use std::alloc::{AllocError, Global};

// The most members that are compared each with each.
const MOST_COMPARED: usize = 16;

// Whether some bucket has two equal members. Each bucket is looked through once, a large one sorted.
pub(crate) fn have_equal_members(alloc: Global, plan: &Plan) -> Result<bool, NoMemory> {
    let mut room = Vec::new(alloc);
    for rank in 0..plan.ranks() {
        if has_repeat(plan.members(rank), &mut room)? {
            return Ok(true);
        }
    }
    Ok(false)
}

// Whether a number comes twice.
fn has_repeat(numbers: &[u64], room: &mut Vec<u64>) -> Result<bool, AllocError> {
    if numbers.len() <= MOST_COMPARED {
        return Ok(has_repeat_among_few(numbers));
    }
    room.clear();
    room.extend_from_slice(numbers)?;
    room.sort_unstable();
    Ok(has_equal_neighbours(room))
}

fn has_repeat_among_few(numbers: &[u64]) -> bool {
    for i in 1..numbers.len() {
        for j in 0..i {
            if numbers[i] == numbers[j] {
                return true;
            }
        }
    }
    false
}

fn has_equal_neighbours(numbers: &[u64]) -> bool {
    for i in 1..numbers.len() {
        if numbers[i] == numbers[i - 1] {
            return true;
        }
    }
    false
}
