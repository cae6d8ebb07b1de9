// Chains that are pushed, of which the longest is spilled.
ghost use Rattle.std.specs.Prelude.{◌≡◌, ◌≢◌, ◌↔◌, ℕ, ◌+◌, ◌<◌, ◌≤◌, [], ◌∷◌, ◌++◌, length, drop, slice_index_or, All, IfOk, IfSome, IsNone, IsTrue, IsFalse};
ghost use Rattle.block_pool.specs.declared.blocks.TheConstants.{BLOCK_RECORDS};
ghost use Rattle.block_pool.specs.Chains.{chain_at, with_chain, blocks_of, held_blocks};

use crate::spills::spill;
use block_pool::{NoMemory, Pool, Push, Record};
use std::alloc::Global;

/// Three lists in the chains of a new pool of 16 blocks, of which the longest has spilled its first
/// block, and which that is; `None` where they don't fit.
pub fn three_chains(
    alloc: Global,
    first: &[Record],
    second: &[Record],
    third: &[Record],
    spilled: &mut Vec<Record>,
) -> Result<Option<(Pool, u32)>, NoMemory>
    ensures none { IfOk result (λ made. IsNone made
        ↔ 16 < blocks_of first.now + blocks_of second.now + blocks_of third.now) }

    ensures longest { IfOk result (λ made. IfSome made (λ it. All (λ records. length records
        ≤ length (slice_index_or (first.now ∷ second.now ∷ third.now ∷ []) it.1 []))
        (first.now ∷ second.now ∷ third.now ∷ []))) }

    ensures left { IfOk result (λ made. IfSome made (λ it.
        chain_at it.0 it.1 ≡ drop BLOCK_RECORDS
        (slice_index_or (first.now ∷ second.now ∷ third.now ∷ []) it.1 []))) }

    ensures order { IfOk result (λ made. IfSome made (λ it.
        spilled.new.items ++ chain_at it.0 it.1 ≡ spilled.old.items
        ++ slice_index_or (first.now ∷ second.now ∷ third.now ∷ []) it.1 [])) }

    ensures others { IfOk result (λ made. IfSome made (λ it. (other : ℕ) → other ≢ it.1
        → chain_at it.0 other
        ≡ slice_index_or (first.now ∷ second.now ∷ third.now ∷ []) other [])) }
{
    let mut pool = Pool::new(alloc, 16, 3)?;
    if !push_all(&mut pool, 0, first) {
        return Ok(None);
    }
    if !push_all(&mut pool, 1, second) {
        return Ok(None);
    }
    if !push_all(&mut pool, 2, third) {
        return Ok(None);
    }
    let chain = spill(&mut pool, spilled)?;
    Ok(Some((pool, chain)))
}

// Pushes records to a chain while there is room, and tells whether all were kept.
fn push_all(pool: &mut Pool, chain: u32, records: &[Record]) -> bool
    requires present { chain < length pool.old.chains }
    requires within { held_blocks pool.old ≤ pool.old.blocks }
    ensures kept { IsTrue result
        → pool.new ≡ with_chain pool.old chain (chain_at pool.old chain ++ records.now) }

    ensures full { IsFalse result → pool.old.blocks
        < held_blocks (with_chain pool.old chain (chain_at pool.old chain ++ records.now)) }

    ensures within { held_blocks pool.new ≤ pool.new.blocks }
    ensures chains { length pool.new.chains ≡ length pool.old.chains }
{
    for item in records {
        if let Push::Full(_) = pool.push(chain, *item) {
            return false;
        }
    }
    true
}
