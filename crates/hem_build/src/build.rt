// The build of a list of keys over its seeds.
ghost use Rattle.std.specs.Prelude.{◌≡◌, ◌<◌, ◌≤◌, ℕ, length, bytes_eq, IfOk, IsErrOf};
ghost use Rattle.pthash.specs.declared.TheConstants.{MAX_KEYS};
ghost use Rattle.settings.specs.Settings.{settings_data};
ghost use Rattle.build_outcome.specs.BuiltLaws.{AreDistinctKeys};
ghost use Rattle.build_outcome.specs.Clash.{key_at};
ghost use Rattle.build_outcome.specs.IndexLaws.{IsOneToOne};
ghost use Rattle.build_outcome.specs.Outcome.{outcome_of, built, repeated, exhausted};
ghost use Rattle.build_outcome.specs.OutcomeLaws.{IsRepeat};
ghost use Rattle.hem_build.specs.Answers.{outcome_data};
ghost use Rattle.hem_build.specs.Rules.{rules_of};
ghost use Rattle.hem_build.specs.declared.refusal.Causes.{Causes};

use crate::attempt::{Attempt, try_seed};
use crate::built::Built;
use crate::refusal::{Causes, Refusal};
use bucket_map::NoMemory;
use build_outcome::Cause;
use pth_outside::KeyList;
use settings::Settings;
use std::alloc::Global;
use std::sync::Wait;
use std::thread::Threads;
use turn_search::Gate;

/// Builds the index of some keys at the first seed that succeeds, with as many threads as the settings have workers. The
/// answer doesn't depend on their number, nor on how partitions and records are shared out. Several workers of a partition
/// wait for each other where they search by turns, and tell the gate.
pub fn build_keys<R: Threads + Wait + Sync, G: Gate>(
    rt: &R,
    alloc: Global,
    keys: &KeyList,
    settings: &Settings,
    gate: &G,
) -> Result<Built, Refusal>
    requires some { 1 ≤ length keys.now }
    requires few { length keys.now ≤ MAX_KEYS }

    // The outcome decides, but for want of memory.
    ensures built { let rules = rules_of (settings_data settings.now) in IfOk result (λ index.
        outcome_of rules keys.now settings.now.seeds.items ≡ built index) }
    ensures repeated { let rules = rules_of (settings_data settings.now) in (i j : ℕ) →
        IsErrOf result (Refusal.RepeatedKey i j) →
        outcome_of rules keys.now settings.now.seeds.items ≡ repeated i j }
    ensures exhausted { let rules = rules_of (settings_data settings.now) in (causes : Causes) →
        IsErrOf result (Refusal.SeedsExhausted causes) →
        outcome_of rules keys.now settings.now.seeds.items ≡ exhausted causes.list.items }

    // An index gives its keys the numbers below their count, each to one.
    ensures one_to_one { IfOk result (λ index. IsOneToOne index keys.now) }

    // Keys with a repeat are never built, and pairwise different keys are never refused for one.
    ensures distinct { IfOk result (λ index. AreDistinctKeys keys.now) }
    ensures repeat { (i j : ℕ) → IsErrOf result (Refusal.RepeatedKey i j) →
        IsRepeat keys.now i j }
{
    match try_seeds(rt, alloc, keys, settings, gate) {
        Ok(answer) => answer,
        Err(NoMemory) => Err(Refusal::NoMemory),
    }
}

// Tries the seeds in their order, until one succeeds or a repeated key is found.
fn try_seeds<R: Threads + Wait + Sync, G: Gate>(
    rt: &R,
    alloc: Global,
    keys: &KeyList,
    settings: &Settings,
    gate: &G,
) -> Result<Result<Built, Refusal>, NoMemory>
    requires some { 1 ≤ length keys.now }
    requires few { length keys.now ≤ MAX_KEYS }
    ensures { IfOk result (λ answer. outcome_data answer
        ≡ outcome_of (rules_of (settings_data settings.now)) keys.now settings.now.seeds.items) }
{
    let mut causes = Vec::new(alloc);
    for &seed in &settings.seeds {
        match try_seed(rt, alloc, keys, seed, settings, gate)? {
            Attempt::Complete { parts, mark } => {
                let built = Built::new(alloc, seed, keys.len(), settings.shape, parts, mark)?;
                return Ok(Ok(built));
            }
            Attempt::Clashed { first, second } => {
                if are_equal(keys, first, second) {
                    return Ok(Err(Refusal::RepeatedKey { first, second }));
                }
                causes.push(Cause::SameHash { first, second })?;
            }
            Attempt::Stuck { part, bucket } => {
                causes.push(Cause::Stuck { part, bucket })?;
            }
        }
    }
    Ok(Err(Refusal::SeedsExhausted {
        causes: Causes { list: causes },
    }))
}

// Whether the keys at two places are equal.
fn are_equal(keys: &KeyList, first: u64, second: u64) -> bool
    requires first_inside { first < length keys.now }
    requires second_inside { second < length keys.now }
    ensures { result ≡ bytes_eq (key_at keys.now first) (key_at keys.now second) }
{
    keys.key(first) == keys.key(second)
}
