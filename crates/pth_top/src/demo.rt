// The command `demo`.
ghost use Rattle.std.specs.Prelude.{◌≡◌, ◌≢◌, ◌++◌, ◌≤◌, Ok, IfOk, OnOk, IsErrOf, None, length, string_bytes};
ghost use Rattle.pthash.specs.declared.TheConstants.{MAX_KEYS};
ghost use Rattle.command_words.specs.Words.{DemoOf};
ghost use Rattle.pth_outside.specs.Files.{FilesState};
ghost use Rattle.pth_top.specs.declared.TheConstants.{REPEATED_KEY};
ghost use Rattle.pth_top.specs.Demo.{demo_of_index, demo_of_keys, demo_result, keys_line, tried_line, tried_lines};
ghost use Rattle.pth_top.specs.Done.{done_of};
ghost use Rattle.pth_top.specs.Ending.{Ends};

use crate::answer::{Answer, Stop};
use crate::finish::finish_text;
use crate::lists::build_all;
use crate::text::{push_encoding, push_number};
use command_words::{Demo, default_options};
use demo_index::{Tried, demo_keys, try_encodings};
use hem_build::Built;
use pth_outside::{KeyList, Sink};
use std::alloc::{AllocError, Global};
use std::sync::Wait;
use std::thread::Threads;
use turn_search::Gate;

/// Builds the index of generated keys with the settings by default, tries it under each encoding in memory, hands over the
/// length and the sum of the values under each, or why there is no index, and answers the status.
pub fn demo_command<R: Threads + Wait + Sync, O: Sink, G: Gate>(
    rt: &R,
    alloc: Global,
    keys: Demo,
    out: &mut O,
    gate: &G,
) -> u8
    // It needs no files: they stay, whatever they tell.
    ensures ends { (files : FilesState) → Ends (Ok (DemoOf keys.count keys.seed)) result
        files files (O.state out.old) (O.state out.new) }
    // No generated key comes twice.
    ensures distinct { result ≢ REPEATED_KEY }
{
    let answer = demo(rt, alloc, keys, gate);
    finish_text(answer, out)
}

// What the index of generated keys comes to under each encoding, or why there is none.
fn demo<R: Threads + Wait + Sync, G: Gate>(
    rt: &R,
    alloc: Global,
    wanted: Demo,
    gate: &G,
) -> Result<Answer, Stop>
    ensures done { IfOk result (λ answer.
        demo_result wanted.count wanted.seed ≡ done_of answer) }
    ensures distinct { IfOk result (λ answer. answer.status ≢ REPEATED_KEY) }
    ensures no_file { IfOk result (λ answer. answer.file ≡ None) }
    ensures memory { IsErrOf result Stop.Fault → ⊥ }
{
    let Ok(keys) = demo_keys(alloc, wanted.count, wanted.seed) else {
        return Err(Stop::NoMemory);
    };
    demo_of_list(rt, alloc, &keys, gate)
}

// The same of a list of keys.
fn demo_of_list<R: Threads + Wait + Sync, G: Gate>(
    rt: &R,
    alloc: Global,
    keys: &KeyList,
    gate: &G,
) -> Result<Answer, Stop>
    requires { length keys.now ≤ MAX_KEYS }
    ensures done { IfOk result (λ answer. demo_of_keys keys.now ≡ done_of answer) }
    ensures no_file { IfOk result (λ answer. answer.file ≡ None) }
    ensures memory { IsErrOf result Stop.Fault → ⊥ }
{
    let options = default_options(alloc)?;
    match build_all(rt, alloc, keys, &options, gate)? {
        Ok(built) => tried_answer(alloc, &built, keys),
        Err(refusal) => Ok(refusal),
    }
}

// The answer on an index that was built of keys.
fn tried_answer(alloc: Global, built: &Built, keys: &KeyList) -> Result<Answer, Stop>
    requires { length keys.now ≤ MAX_KEYS }
    ensures done { IfOk result (λ answer. done_of answer ≡ demo_of_index keys.now built.now) }
    ensures no_file { IfOk result (λ answer. answer.file ≡ None) }
    ensures memory { IsErrOf result Stop.Fault → ⊥ }
{
    let Ok(tried) = try_encodings(alloc, built, keys) else {
        return Err(Stop::NoMemory);
    };
    let mut text = String::new(alloc);
    push_keys(&mut text, built.n, built.seed)?;
    push_tried(&mut text, &tried)?;
    Ok(Answer {
        status: 0,
        text,
        file: None,
    })
}

// Appends how many keys an index has, and its seed, as a line.
fn push_keys(text: &mut String, keys: u64, seed: u64) -> Result<(), AllocError>
    ensures { OnOk result (string_bytes text.new ≡ string_bytes text.old ++ keys_line keys seed) }
{
    push_number(text, "keys ", keys)?;
    push_number(text, " seed ", seed)?;
    text.push_str("\n")?;
    Ok(())
}

// Appends what an index came to under an encoding as a line.
fn push_one(text: &mut String, tried: Tried) -> Result<(), AllocError>
    ensures { OnOk result (string_bytes text.new ≡ string_bytes text.old ++ tried_line tried) }
{
    push_encoding(text, tried.enc)?;
    push_number(text, " bytes ", tried.bytes)?;
    push_number(text, " sum ", tried.sum)?;
    text.push_str("\n")?;
    Ok(())
}

// Appends what an index came to under encodings, a line each.
fn push_tried(text: &mut String, all: &[Tried]) -> Result<(), AllocError>
    ensures { OnOk result (string_bytes text.new ≡ string_bytes text.old ++ tried_lines all.now) }
{
    for i in 0..all.len() {
        push_one(text, all[i])?;
    }
    Ok(())
}
