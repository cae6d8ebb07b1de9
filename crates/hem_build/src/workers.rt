// How workers are shared out: over groups of partitions, and within a group over its searches.
ghost use Rattle.std.specs.Prelude.{◌≡◌, ◌*◌, ◌≤◌};
ghost use Rattle.settings.specs.Workers.{workers_of};
ghost use Rattle.hem_build.specs.declared.workers.TheConstants.{MOST_GROUPS};

use settings::How;

// The most groups of partitions that are built at the same time.
pub(crate) const MOST_GROUPS: u64 = 8;

// How many threads a build may use at the same time.
pub(crate) fn worker_count(how: How) -> u32
    ensures { result ≡ workers_of how }
{
    match how {
        How::Alone => 1,
        How::Rounds(workers) | How::Turns(workers) => workers,
    }
}

// How many groups the partitions are built in.
pub(crate) fn group_count(how: How, partitions: u64) -> u64
    requires some_worker { 1 ≤ workers_of how }
    requires some_partition { 1 ≤ partitions }
    ensures some { 1 ≤ result }
    ensures few { result ≤ workers_of how }
    ensures most { result ≤ MOST_GROUPS }
{
    MOST_GROUPS
        .min(u64::from(worker_count(how)))
        .min(partitions)
}

// How one of so many groups is searched: each has as many workers as the next, and all together no more than there are.
pub(crate) fn how_in_group(how: How, groups: u64) -> How
    requires some { 1 ≤ groups }
    requires few { groups ≤ workers_of how }
    ensures some { 1 ≤ workers_of result }
    ensures few { workers_of result ≤ workers_of how }
    ensures shared { workers_of result * groups ≤ workers_of how }
{
    match how {
        How::Alone => How::Alone,
        How::Rounds(workers) => How::Rounds(share(workers, groups)),
        How::Turns(workers) => How::Turns(share(workers, groups)),
    }
}

fn share(workers: u32, groups: u64) -> u32
    requires some { 1 ≤ groups }
    requires few { groups ≤ workers }
    ensures some { 1 ≤ result }
    ensures few { result ≤ workers }
    ensures shared { result * groups ≤ workers }
{
    (u64::from(workers) / groups) as u32
}
