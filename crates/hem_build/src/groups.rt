// The partitions of an attempt, built in groups of neighbours at the same time.
ghost use Rattle.std.specs.Prelude.{◌≡◌, ◌+◌, ◌-◌, ◌<◌, ◌≤◌, [], length, slice_index, slice_index_or, IfOk};
ghost use Rattle.std.specs.Thread.{IsSync};
ghost use Rattle.pthash.specs.declared.TheConstants.{MAX_KEYS, MAX_PARTITIONS};
ghost use Rattle.settings.specs.Settings.{settings_data};
ghost use Rattle.settings.specs.Workers.{workers_of};
ghost use Rattle.settings.specs.declared.settings.TheConstants.{MAX_WORKERS};
ghost use Rattle.build_outcome.specs.Attempt.{part_of, parts_from};
ghost use Rattle.build_outcome.specs.Ranges.{parts_between};
ghost use Rattle.hem_build.specs.Answers.{part_data, group_data, AreGroupAnswers};
ghost use Rattle.hem_build.specs.Rules.{rules_of, one_rule};
ghost use Rattle.hem_build.specs.declared.workers.TheConstants.{MOST_GROUPS};
ghost use Rattle.hem_build.specs.Starts.{AreGroupStarts, IsGroupOf, FewKeys};

use crate::pieces::Pieces;
use crate::workers::{MOST_GROUPS, group_count, how_in_group};
use bucket_map::{NoMemory, Record};
use part_function::{Part, build_part_with};
use pilot_search::{Scratch, Stuck};
use settings::{How, Settings};
use std::alloc::{AllocError, Global};
use std::sync::Wait;
use std::thread;
use std::thread::Threads;
use turn_search::Gate;

// The first partition that is stuck, and its bucket that has no pilot.
#[derive(Clone, Copy, Debug, PartialEq, Eq)]
pub(crate) struct StuckPart {
    pub(crate) part: u32,
    pub(crate) bucket: u64,
}

// Builds all partitions of n records, or answers the first that is stuck.
pub(crate) fn build_partitions<R: Threads + Wait + Sync, G: Gate>(
    rt: &R,
    alloc: Global,
    partitions: &Pieces,
    n: u64,
    seed: u64,
    settings: &Settings,
    gate: &G,
) -> Result<Result<Vec<Part>, StuckPart>, NoMemory>
    requires some_partition { 1 ≤ length partitions.now }
    requires few_partitions { length partitions.now ≤ MAX_PARTITIONS }
    requires few_keys { FewKeys partitions.now }
    ensures { IfOk result (λ answer. group_data answer
        ≡ parts_from (rules_of (settings_data settings.now)) seed 0 partitions.now) }
{
    let groups = group_count(settings.how, partitions.len());
    let how = how_in_group(settings.how, groups);
    let counts = partitions.counts(alloc)?;
    let bounds = group_starts(alloc, &counts, n, groups)?;
    let starts = bounds.as_slice();
    let answers = thread::map_indices(
        rt,
        alloc,
        groups as usize,
        &|group: usize| -> Result<Result<Vec<Part>, StuckPart>, NoMemory>
            requires sync { IsSync R.row }
            requires group { IsGroupOf partitions.now starts.now group settings.now.how how }
            ensures { IfOk result (λ answer. group_data answer
                ≡ parts_between (rules_of (settings_data settings.entry.now)) seed
                partitions.entry.now (slice_index starts.entry.now group)
                (slice_index starts.entry.now (group + 1))) }
        {
            build_group(
                rt, alloc, partitions, starts, group, seed, settings, how, gate,
            )
        },
    )?;
    join_groups(alloc, partitions, starts, seed, settings, answers)
}

// Where groups of neighbours with about as many records each begin; one more start is the end.
fn group_starts(alloc: Global, counts: &[u64], n: u64, groups: u64) -> Result<Vec<u64>, AllocError>
    requires some { 1 ≤ groups }
    requires most { groups ≤ MOST_GROUPS }
    ensures { IfOk result (λ v. AreGroupStarts groups (length counts.now) v.items) }
{
    let wanted = n / groups;
    let mut starts = Vec::with_capacity(alloc, groups as usize + 1)?;
    let mut start = 0;
    for _ in 0..groups {
        starts.push(start)?;
        start = group_end(counts, start, wanted);
    }
    starts.push(counts.len() as u64)?;
    Ok(starts)
}

// Where a group ends that has about so many records. A partition belongs to it if less than half would be too much.
fn group_end(counts: &[u64], start: u64, wanted: u64) -> u64
    requires { start ≤ length counts.now }
    ensures low { start ≤ result }
    ensures high { result ≤ length counts.now }
{
    let mut counted: u64 = 0;
    for number in start..counts.len() as u64 {
        let more = counts[number as usize];
        if counted.saturating_add(more / 2) > wanted {
            return number;
        }
        counted = counted.saturating_add(more);
    }
    counts.len() as u64
}

// Builds the partitions of a group one after another, up to the first that is stuck.
fn build_group<R: Threads + Wait + Sync, G: Gate>(
    rt: &R,
    alloc: Global,
    partitions: &Pieces,
    starts: &[u64],
    group: usize,
    seed: u64,
    settings: &Settings,
    how: How,
    gate: &G,
) -> Result<Result<Vec<Part>, StuckPart>, NoMemory>
    requires { IsGroupOf partitions.now starts.now group settings.now.how how }
    ensures { IfOk result (λ answer. group_data answer
        ≡ parts_between (rules_of (settings_data settings.now)) seed partitions.now
        (slice_index starts.now group) (slice_index starts.now (group + 1))) }
{
    let mut built = Vec::new(alloc);
    let mut scratch = Scratch::with(alloc, 0)?;
    for number in starts[group]..starts[group + 1] {
        match build_one(
            rt,
            alloc,
            partitions,
            number,
            seed,
            settings,
            how,
            &mut scratch,
            gate,
        )? {
            Ok(part) => built.push(part)?,
            Err(stuck) => {
                let part = number as u32;
                let bucket = stuck.bucket;
                return Ok(Err(StuckPart { part, bucket }));
            }
        }
    }
    Ok(Ok(built))
}

// Builds a partition, whose records are gathered where they stand in more than one piece. They are gathered anew for each, since an
// allocator that has seen so much memory let go of at once doesn't give what a partition takes back to the system.
fn build_one<R: Threads + Wait + Sync, G: Gate>(
    rt: &R,
    alloc: Global,
    partitions: &Pieces,
    number: u64,
    seed: u64,
    settings: &Settings,
    how: How,
    scratch: &mut Scratch,
    gate: &G,
) -> Result<Result<Part, Stuck>, NoMemory>
    requires within { number < length partitions.now }
    requires few { length (slice_index_or partitions.now number []) ≤ MAX_KEYS }
    requires some_worker { 1 ≤ workers_of how }
    requires few_workers { workers_of how ≤ MAX_WORKERS }
    ensures { IfOk result (λ answer. part_data answer
        ≡ part_of (one_rule (settings_data settings.now)) seed
        (slice_index_or partitions.now number [])) }
{
    match partitions.only() {
        Some(only) => build_records(
            rt,
            alloc,
            only.records(number),
            seed,
            settings,
            how,
            scratch,
            gate,
        ),
        None => {
            let records = partitions.gather(alloc, number)?;
            build_records(rt, alloc, &records, seed, settings, how, scratch, gate)
        }
    }
}

// Builds the partition of some records.
fn build_records<R: Threads + Wait + Sync, G: Gate>(
    rt: &R,
    alloc: Global,
    records: &[Record],
    seed: u64,
    settings: &Settings,
    how: How,
    scratch: &mut Scratch,
    gate: &G,
) -> Result<Result<Part, Stuck>, NoMemory>
    requires few { length records.now ≤ MAX_KEYS }
    requires some_worker { 1 ≤ workers_of how }
    requires few_workers { workers_of how ≤ MAX_WORKERS }
    ensures { IfOk result (λ answer. part_data answer
        ≡ part_of (one_rule (settings_data settings.now)) seed records.now) }
{
    build_part_with(
        rt,
        alloc,
        records,
        settings.shape,
        seed,
        settings.limit,
        how,
        scratch,
        gate,
    )
}

// The partitions of all groups, or the first that is stuck.
fn join_groups(
    alloc: Global,
    partitions: &Pieces,
    starts: &[u64],
    seed: u64,
    settings: &Settings,
    answers: Vec<Result<Result<Vec<Part>, StuckPart>, NoMemory>>,
) -> Result<Result<Vec<Part>, StuckPart>, NoMemory>
    requires starts { AreGroupStarts (length starts.now - 1) (length partitions.now) starts.now }
    requires answers { AreGroupAnswers (rules_of (settings_data settings.now)) seed partitions.now
        starts.now 0 answers.items }
    ensures { IfOk result (λ answer. group_data answer
        ≡ parts_from (rules_of (settings_data settings.now)) seed 0 partitions.now) }
{
    let mut all = Vec::new(alloc);
    for answer in answers {
        match answer? {
            Ok(mut parts) => all.append(&mut parts)?,
            Err(stuck) => return Ok(Err(stuck)),
        }
    }
    Ok(Ok(all))
}
