// The free list: where the positions behind the keys are sent.

ghost use Rattle.std.specs.Prelude.{◌≡◌, ◌<◌, ◌≤◌, ◌-◌, length, map, slice_index, min, IfOk};
ghost use Rattle.std.specs.FinSet as set;
ghost use Rattle.pthash.specs.declared.TheConstants.{MAX_POSITIONS};
ghost use Rattle.pthash.specs.Order.{numbers_below};
ghost use Rattle.build_outcome.specs.FreeList.{free_below, free_list_of};
ghost use Rattle.part_function.specs.Walk.{IsNextFree, IsRunOfOnes};

use bucket_map::NoMemory;
use elias_fano::EliasFano;
use pilot_search::Occupancy;
use std::alloc::{AllocError, Global};

/// The free list of `n` keys in a table: the entry of each position from `n` on.
pub fn free_list(alloc: Global, occupied: &Occupancy, n: u64) -> Result<EliasFano, NoMemory>
    requires { n ≤ occupied.now.size }
    ensures { let taken = set.contains occupied.now.taken in
        IfOk result (λ free. free ≡ free_list_of taken n occupied.now.size) }
{
    let entries = free_entries(alloc, occupied, n)?;
    match EliasFano::build(alloc, &entries) {
        Ok(list) => Ok(list),
        Err(_) => Err(NoMemory),
    }
}

// The entry of each position from `n` on.
fn free_entries(alloc: Global, occupied: &Occupancy, n: u64) -> Result<Vec<u64>, AllocError>
    requires { n ≤ occupied.now.size }
    ensures entries { let taken = set.contains occupied.now.taken in
        IfOk result (λ v. v.items ≡ free_list_of taken n occupied.now.size) }
    ensures few { IfOk result (λ v. length v.items ≤ MAX_POSITIONS) }
{
    let free = free_positions(alloc, occupied, n)?;
    let size = occupied.size();
    let mut entries = Vec::with_capacity(alloc, (size - n) as usize)?;
    let mut rank = 0;
    for position in n..size {
        entries.push(entry_at(&free, rank))?;
        rank += u64::from(occupied.contains(position));
    }
    Ok(entries)
}

// The free position of a rank: of a later one the last, and 0 where none is free.
fn entry_at(free: &[u64], rank: u64) -> u64
    ensures { result ≡ slice_index free.now (min rank (length free.now - 1)) }
{
    let count = free.len() as u64;
    if count == 0 {
        0
    } else {
        free[rank.min(count - 1) as usize]
    }
}

// The free positions below `n`, which are at most as many as there are positions from `n` on.
fn free_positions(alloc: Global, occupied: &Occupancy, n: u64) -> Result<Vec<u64>, AllocError>
    requires { n ≤ occupied.now.size }
    ensures { IfOk result (λ v. v.items ≡ free_below (set.contains occupied.now.taken) n) }
{
    let mut free = Vec::with_capacity(alloc, (occupied.size() - n) as usize)?;
    let mut position = next_free(occupied, 0, n);
    while position < n {
        free.push(position)?;
        position = next_free(occupied, position + 1, n);
    }
    Ok(free)
}

// The first free position from one on, or the end: 64 positions are looked at together.
fn next_free(occupied: &Occupancy, from: u64, end: u64) -> u64
    requires from { from ≤ end }
    requires end { end ≤ occupied.now.size }
    requires bound { end ≤ MAX_POSITIONS }
    ensures { IsNextFree (set.contains occupied.now.taken) from end result }
{
    let mut position = from;
    while position < end {
        let place = position % 64;
        let run = taken_run(occupied.word(position / 64), place);
        position += run;
        if place + run < 64 {
            return position.min(end);
        }
    }
    end
}

// How many bits of a word from a place on are set before one that is not.
fn taken_run(word: u64, place: u64) -> u64
    requires { place < 64 }
    ensures { IsRunOfOnes word place result }
{
    let free = !word >> place;
    if free > 0 {
        u64::from(free.trailing_zeros())
    } else {
        64 - place
    }
}
