// The lists of a partition that has a key.
ghost use Rattle.std.specs.Prelude.{◌≡◌, ◌+◌, ◌≤◌, length};
ghost use Rattle.pthash.specs.declared.TheConstants.{MAX_POSITIONS};

use bucket_map::BucketDivisors;
use divisor::Divisor;
use elias_fano::EliasFano;
use pilot_codecs::Pilots;

// The lists of a partition.
#[derive(Drop)]
pub(crate) struct Lists {
    pub(crate) n: u64,
    pub(crate) pilots: Pilots,
    pub(crate) free: EliasFano,
    pub(crate) buckets: BucketDivisors,
    pub(crate) size: Divisor,
    pub(crate) ghost some: { 1 ≤ n },
    pub(crate) ghost bucket_count: { buckets ≡ length pilots.values },
    pub(crate) ghost positions: { size ≡ n + length free },
    pub(crate) ghost few_positions: { size ≤ MAX_POSITIONS },
}
