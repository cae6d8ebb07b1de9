// A pool at its bounds, and beside plain lists.
ghost use Rattle.std.specs.Prelude.{◌≡◌, ◌<◌, length};

use super::*;
use std::alloc::{AllocError, Global};
use std::test::Fail;

fn record(ordinal: u64) -> Record {
    Record {
        a: ordinal ^ 7,
        b: ordinal | 1,
        ordinal,
    }
}

#[test]
fn a_spill_makes_room_for_another_chain(rt: HostRuntime) -> Result<(), Fail> {
    let mut pool = Pool::new(rt.alloc(), 2, 3)?;
    for k in 0..1_025 {
        assert_eq!(rt; pool.push(0, record(k)), Push::Kept, "record {k}");
    }
    assert_eq!(rt; pool.free(), 0);
    assert_eq!(rt; pool.push(1, record(9)), Push::Full(record(9)));
    assert_eq!(rt; pool.longest(), 0);
    assert_eq!(rt; pool.front(0).len(), 1_024);
    pool.drop_front(0);
    assert_eq!(rt; pool.free(), 1);
    assert_eq!(rt; pool.push(1, record(9)), Push::Kept);
    assert_eq!(rt; (pool.len(0), pool.len(1), pool.len(2)), (1, 1, 0));
    assert_eq!(rt; pool.longest(), 0);
    assert_eq!(rt; pool.front(0), [record(1_024)].as_slice());
    Ok(())
}

#[test]
fn a_pool_of_one_block_fills_up(rt: HostRuntime) -> Result<(), Fail> {
    let mut pool = Pool::new(rt.alloc(), 1, 1)?;
    pool.drop_front(0);
    assert_eq!(rt; pool.front(0).len(), 0);
    assert_eq!(rt; (pool.len(0), pool.free()), (0, 1));
    for k in 0..1_024 {
        assert_eq!(rt; pool.push(0, record(k)), Push::Kept, "record {k}");
    }
    assert_eq!(rt; pool.push(0, record(1_024)), Push::Full(record(1_024)));
    assert_eq!(rt; (pool.len(0), pool.free()), (1_024, 0));
    Ok(())
}

// How many of six blocks these lists leave free.
fn free_beside(lists: &[Vec<Record>; 4]) -> usize {
    let mut free: usize = 6;
    for list in lists {
        free = free.saturating_sub(list.len().div_ceil(1_024));
    }
    free
}

// Pushes records to a chain and its list, and tells whether each answer was right.
fn push_all(
    pool: &mut Pool,
    list: &mut Vec<Record>,
    chain: u32,
    seed: u64,
) -> Result<bool, AllocError>
    requires { chain < length pool.old.chains }
    ensures { length pool.new.chains ≡ length pool.old.chains }
{
    for k in 0..seed % 512 {
        let item = record(seed ^ k);
        let full = pool.free() == 0 && list.len() % 1_024 == 0;
        let wanted = if full { Push::Full(item) } else { Push::Kept };
        if pool.push(chain, item) != wanted {
            return Ok(false);
        }
        if !full {
            list.push(item)?;
        }
    }
    Ok(true)
}

// Takes the front out of a chain and its list, and tells whether it was right.
fn drop_both(
    alloc: Global,
    pool: &mut Pool,
    list: &mut Vec<Record>,
    chain: u32,
) -> Result<bool, AllocError>
    requires { chain < length pool.old.chains }
    ensures { length pool.new.chains ≡ length pool.old.chains }
{
    let count = list.len().min(1_024);
    let right = pool.front(chain) == &list[..count];
    *list = Vec::from_slice(alloc, &list[count..])?;
    pool.drop_front(chain);
    Ok(right)
}

// One step that a pseudo-random number picks.
fn step_both(
    alloc: Global,
    pool: &mut Pool,
    list: &mut Vec<Record>,
    chain: u32,
    seed: u64,
) -> Result<bool, AllocError>
    requires { chain < length pool.old.chains }
    ensures { length pool.new.chains ≡ length pool.old.chains }
{
    if seed / 512 % 8 < 2 {
        drop_both(alloc, pool, list, chain)
    } else {
        push_all(pool, list, chain, seed)
    }
}

#[test]
fn a_pool_answers_as_lists_do(rt: HostRuntime) -> Result<(), Fail> {
    let alloc = rt.alloc();
    let mut pool = Pool::new(alloc, 6, 4)?;
    let mut lists = [
        Vec::new(alloc),
        Vec::new(alloc),
        Vec::new(alloc),
        Vec::new(alloc),
    ];
    let mut state: u64 = 7;
    for step in 0..3_000 {
        state = state
            .wrapping_mul(6_364_136_223_846_793_005)
            .wrapping_add(1_442_695_040_888_963_407);
        let seed = state / 2_u64.pow(33);
        let chain = seed as usize / 4_096 % 4;
        let right = step_both(alloc, &mut pool, &mut lists[chain], chain as u32, seed)?;
        assert!(rt; right, "step {step}");
        assert_eq!(rt;
            pool.len(chain as u32),
            lists[chain].len() as u64,
            "step {step}"
        );
        assert_eq!(rt; pool.free() as usize, free_beside(&lists), "step {step}");
    }
    Ok(())
}
