// The list of keys that a command reads and the index of it, or the refusal that they deserve.
ghost use Rattle.std.specs.Prelude.{◌≡◌, ◌≢◌, ◌≤◌, [], codes, length, Err, IfOk, IfErr, IsErrOf, None};
ghost use Rattle.build_outcome.specs.Outcome.{repeated, exhausted};
ghost use Rattle.command_words.specs.Options.{options_data};
ghost use Rattle.pth_outside.specs.Files.{ReadsFiles, OfFile, contents};
ghost use Rattle.pth_outside.specs.Keys.{keys_of};
ghost use Rattle.pth_top.specs.Done.{done_of, or_refused};
ghost use Rattle.pth_top.specs.Lists.{index_by, index_for, index_in, list_in, no_keys_result, too_long_result, too_many_result, IsIndexFor};

use crate::answer::{Answer, Stop};
use crate::text::{exhausted_text, repeated_key_text, too_long_text, too_many_text};
use crate::{LIST_REFUSED, REPEATED_KEY, SEEDS_EXHAUSTED};
use bucket_map::NoMemory;
use command_words::Options;
use hem_build::{Built, Causes, Refusal, build_keys};
use pth_outside::{Files, KeyList, KeysErr, read_keys};
use std::alloc::{AllocError, Global};
use std::sync::Wait;
use std::thread::Threads;
use turn_search::Gate;

// The list of keys that a file has, of at most so many, or the refusal that the file deserves.
fn read_list<F: Files>(
    alloc: Global,
    files: &mut F,
    name: &str,
    most: u64,
) -> Result<Result<KeyList, Answer>, Stop>
    requires { most ≤ 67108864 }
    ensures done { IfOk result (λ end. OfFile (F.state files.old).told name.now (λ bytes.
        list_in (codes "keys") most bytes ≡ or_refused end)) }
    ensures keys { IfOk result (λ end. IfOk end (λ keys.
        OfFile (F.state files.old).told name.now (λ bytes. keys ≡ keys_of bytes))) }
    ensures few { IfOk result (λ end. IfOk end (λ keys. length keys ≤ most)) }
    ensures refused { IfOk result (λ end. IfErr end (λ answer. answer.status ≢ 0)) }
    ensures leaves { ReadsFiles (F.state files.old) (F.state files.new)
        (IsErrOf result Stop.Fault) (contents (F.state files.old).told name.now ≡ None) }
{
    match read_keys(alloc, files, name, most) {
        Ok(keys) => Ok(Ok(keys)),
        Err(KeysErr::TooLong { line }) => Ok(Err(too_long_answer(alloc, line)?)),
        Err(KeysErr::TooMany) => Ok(Err(too_many_answer(alloc, "keys", most)?)),
        Err(KeysErr::Fault) => Err(Stop::Fault),
        Err(KeysErr::NoMemory) => Err(Stop::NoMemory),
    }
}

/// The index of the keys of a file, or the refusal that the file and the settings deserve. The keys are let go of.
pub fn build_list<R: Threads + Wait + Sync, F: Files, G: Gate>(
    rt: &R,
    alloc: Global,
    files: &mut F,
    name: &str,
    options: &Options,
    gate: &G,
) -> Result<Result<Built, Answer>, Stop>
    ensures done { IfOk result (λ end. OfFile (F.state files.old).told name.now (λ bytes.
        index_in (options_data options.now) bytes ≡ or_refused end)) }
    ensures index { IfOk result (λ end. IfOk end (λ index.
        OfFile (F.state files.old).told name.now (λ bytes.
        IsIndexFor (options_data options.now) (keys_of bytes) index))) }
    ensures refused { IfOk result (λ end. IfErr end (λ answer. answer.status ≢ 0)) }
    ensures leaves { ReadsFiles (F.state files.old) (F.state files.new)
        (IsErrOf result Stop.Fault) (contents (F.state files.old).told name.now ≡ None) }
{
    match read_list(alloc, files, name, options.most)? {
        Ok(keys) => Ok(build_all(rt, alloc, &keys, options, gate)?),
        Err(refusal) => Ok(Err(refusal)),
    }
}

/// The index of some keys, or the refusal that they and the settings deserve.
pub fn build_all<R: Threads + Wait + Sync, G: Gate>(
    rt: &R,
    alloc: Global,
    keys: &KeyList,
    options: &Options,
    gate: &G,
) -> Result<Result<Built, Answer>, NoMemory>
    requires { length keys.now ≤ options.now.most }
    ensures done { IfOk result (λ end.
        index_for (options_data options.now) keys.now ≡ or_refused end) }
    ensures index { IfOk result (λ end. IfOk end (IsIndexFor (options_data options.now) keys.now)) }
    ensures refused { IfOk result (λ end. IfErr end (λ answer. answer.status ≢ 0)) }
{
    if keys.len() == 0 {
        return Ok(Err(no_keys_answer(alloc)?));
    }
    match build_keys(rt, alloc, keys, &options.settings, gate) {
        Ok(built) => Ok(Ok(built)),
        Err(Refusal::RepeatedKey { first, second }) => {
            Ok(Err(repeated_answer(alloc, first, second)?))
        }
        Err(Refusal::SeedsExhausted { causes }) => Ok(Err(exhausted_answer(
            alloc,
            &options.settings.seeds,
            &causes,
        )?)),
        Err(Refusal::NoMemory) => Err(NoMemory),
    }
}

// The refusal of a file with a line that is too long.
pub(crate) fn too_long_answer(alloc: Global, number: u64) -> Result<Answer, AllocError>
    ensures { IfOk result (λ answer. done_of answer ≡ too_long_result number) }
{
    let text = too_long_text(alloc, number)?;
    Ok(Answer {
        status: LIST_REFUSED,
        text,
        file: None,
    })
}

// The refusal of a file with more lines than the limit.
pub(crate) fn too_many_answer(alloc: Global, what: &str, most: u64) -> Result<Answer, AllocError>
    ensures { IfOk result (λ answer. done_of answer ≡ too_many_result what.now most) }
{
    let text = too_many_text(alloc, what, most)?;
    Ok(Answer {
        status: LIST_REFUSED,
        text,
        file: None,
    })
}

// The refusal of a file with no key.
fn no_keys_answer(alloc: Global) -> Result<Answer, AllocError>
    ensures { IfOk result (λ answer. done_of answer ≡ no_keys_result) }
{
    let text = String::from_str(alloc, "no keys\n")?;
    Ok(Answer {
        status: LIST_REFUSED,
        text,
        file: None,
    })
}

// The refusal of a list with the same key at two places.
fn repeated_answer(alloc: Global, first: u64, second: u64) -> Result<Answer, AllocError>
    ensures { IfOk result (λ answer.
        Err (done_of answer) ≡ index_by [] (repeated first second)) }
{
    let text = repeated_key_text(alloc, first, second)?;
    Ok(Answer {
        status: REPEATED_KEY,
        text,
        file: None,
    })
}

// The refusal of a list for which no seed succeeds.
fn exhausted_answer(alloc: Global, seeds: &[u64], causes: &Causes) -> Result<Answer, AllocError>
    ensures { IfOk result (λ answer.
        Err (done_of answer) ≡ index_by seeds.now (exhausted causes.now.list.items)) }
{
    let text = exhausted_text(alloc, seeds, &causes.list)?;
    Ok(Answer {
        status: SEEDS_EXHAUSTED,
        text,
        file: None,
    })
}
