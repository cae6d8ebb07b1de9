// An attempt at one seed.
ghost use Rattle.std.specs.Prelude.{◌≡◌, ◌≤◌, Ok, Err, length, IfOk, IfErr};
ghost use Rattle.pthash.specs.declared.TheConstants.{MAX_KEYS};
ghost use Rattle.settings.specs.Settings.{settings_data};
ghost use Rattle.build_outcome.specs.Attempt.{attempt_of};
ghost use Rattle.build_outcome.specs.AttemptLaws.{parts_of};
ghost use Rattle.build_outcome.specs.Mark.{mark_of};
ghost use Rattle.hem_build.specs.Answers.{attempt_data, HasMark};
ghost use Rattle.hem_build.specs.Rules.{rules_of};

use crate::clash::first_clash;
use crate::cutting::cut_keys;
use crate::groups::{StuckPart, build_partitions};
use crate::workers::worker_count;
use bucket_map::NoMemory;
use build_outcome::KeyMark;
use part_function::Part;
use pth_outside::KeyList;
use settings::Settings;
use std::alloc::Global;
use std::sync::Wait;
use std::thread::Threads;
use turn_search::Gate;

// How an attempt at a seed ends.
#[derive(Drop)]
pub(crate) enum Attempt {
    // The keys at these places have the same pair of hashes.
    Clashed { first: u64, second: u64 },
    // This bucket of this partition has no pilot.
    Stuck { part: u32, bucket: u64 },
    Complete { parts: Vec<Part>, mark: KeyMark },
}

// The partitions of a list of keys, and its mark.
#[derive(Drop)]
struct MarkedParts {
    parts: Vec<Part>,
    mark: KeyMark,
}

// Tries a seed. Where all partitions end well no two keys have the same pair, so that a clash is sought only where one is stuck.
pub(crate) fn try_seed<R: Threads + Wait + Sync, G: Gate>(
    rt: &R,
    alloc: Global,
    keys: &KeyList,
    seed: u64,
    settings: &Settings,
    gate: &G,
) -> Result<Attempt, NoMemory>
    requires { length keys.now ≤ MAX_KEYS }
    ensures attempt { IfOk result (λ attempt. attempt_data attempt
        ≡ attempt_of (rules_of (settings_data settings.now)) keys.now seed) }
    ensures mark { IfOk result (HasMark keys.now seed) }
{
    match parts_of_keys(rt, alloc, keys, seed, settings, gate)? {
        Ok(MarkedParts { parts, mark }) => Ok(Attempt::Complete { parts, mark }),
        Err(stuck) => match first_clash(rt, alloc, keys, seed, worker_count(settings.how))? {
            Some((first, second)) => Ok(Attempt::Clashed { first, second }),
            None => Ok(Attempt::Stuck {
                part: stuck.part,
                bucket: stuck.bucket,
            }),
        },
    }
}

// Builds the partitions of a list of keys, or answers the first that is stuck. Its records are let go of before it returns.
fn parts_of_keys<R: Threads + Wait + Sync, G: Gate>(
    rt: &R,
    alloc: Global,
    keys: &KeyList,
    seed: u64,
    settings: &Settings,
    gate: &G,
) -> Result<Result<MarkedParts, StuckPart>, NoMemory>
    requires { length keys.now ≤ MAX_KEYS }
    ensures parts { IfOk result (λ answer. IfOk answer (λ built.
        parts_of (rules_of (settings_data settings.now)) keys.now seed ≡ Ok built.parts.items)) }
    ensures mark { IfOk result (λ answer. IfOk answer (λ built.
        built.mark ≡ mark_of keys.now seed)) }
    ensures stuck { IfOk result (λ answer. IfErr answer (λ stuck.
        parts_of (rules_of (settings_data settings.now)) keys.now seed
        ≡ Err (stuck.part, stuck.bucket))) }
{
    let all = cut_keys(rt, alloc, keys, seed, settings.parts, settings.how)?;
    let mark = all.mark;
    match build_partitions(rt, alloc, &all.pieces, keys.len(), seed, settings, gate)? {
        Ok(parts) => Ok(Ok(MarkedParts { parts, mark })),
        Err(stuck) => Ok(Err(stuck)),
    }
}
