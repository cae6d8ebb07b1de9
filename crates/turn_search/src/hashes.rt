// The hashes of the first pilots, which a table keeps.

ghost use Rattle.std.specs.Prelude.{◌≡◌, IfOk};
ghost use Rattle.pthash.specs.Hash.{pilot_hash};
ghost use Rattle.pilot_search.specs.Kept.{AreHashes};

use crate::table::TurnTable;
use murmur64::pilot_hash;
use pilot_search::Plan;
use std::alloc::{AllocError, Global};

// The most hashes that are kept.
const MOST_HASHES: u64 = 4096;

impl<'a> TurnTable<'a> {
    // The hash of a pilot, which is kept for the first ones.
    #[inline]
    pub(crate) fn hash_of(&self, pilot: u64) -> u64
        ensures { result ≡ pilot_hash pilot self.now.plan.seed }
    {
        if pilot < self.hashes.len() as u64 {
            self.hashes[pilot as usize]
        } else {
            pilot_hash(pilot, self.plan.seed())
        }
    }
}

// The hashes of a plan's first pilots, fewer where its table is small.
pub(crate) fn hashes_of(alloc: Global, plan: &Plan) -> Result<Vec<u64>, AllocError>
    ensures { IfOk result (λ hashes. AreHashes plan.now.seed hashes.items) }
{
    let count = MOST_HASHES.min(64 + plan.size() / 16);
    let mut hashes = vec![in alloc; 0; count as usize]?;
    fill_hashes(hashes.as_mut_slice(), plan.seed());
    Ok(hashes)
}

// Writes the hash of each pilot to its place.
fn fill_hashes(hashes: &mut [u64], seed: u64)
    ensures { AreHashes seed hashes.new }
{
    for pilot in 0..hashes.len() {
        hashes[pilot] = pilot_hash(pilot as u64, seed);
    }
}
