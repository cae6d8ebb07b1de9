// A pool gives the first block of its longest chain away.
ghost use Rattle.std.specs.Prelude.{◌≡◌, ◌≢◌, ℕ, ◌<◌, ◌≤◌, ◌++◌, length, drop, All, IfOk};
ghost use Rattle.block_pool.specs.Chains.{chain_at};

use block_pool::{BLOCK_RECORDS, NoMemory, Pool, Record};

/// Moves the first block of the longest chain to the end of `spilled`, and gives the chain.
pub fn spill(pool: &mut Pool, spilled: &mut Vec<Record>) -> Result<u32, NoMemory>
    ensures inside { IfOk result (λ chain. chain < length pool.old.chains) }
    ensures longest { IfOk result (λ chain. All
        (λ records. length records ≤ length (chain_at pool.old chain)) pool.old.chains) }

    ensures left { IfOk result (λ chain. chain_at pool.new chain
        ≡ drop BLOCK_RECORDS (chain_at pool.old chain)) }
    ensures order { IfOk result (λ chain. spilled.new.items ++ chain_at pool.new chain
        ≡ spilled.old.items ++ chain_at pool.old chain) }
    ensures others { IfOk result (λ chain. (other : ℕ) → other ≢ chain
        → chain_at pool.new other ≡ chain_at pool.old other) }
{
    let chain = pool.longest();
    spilled.extend_from_slice(pool.front(chain))?;
    pool.drop_front(chain);
    Ok(chain)
}
