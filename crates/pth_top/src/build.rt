// The command `build`.
ghost use Rattle.std.specs.Prelude.{◌≡◌, Ok, IfOk, OnOk, IsErrOf, IsSomeAnd, None};
ghost use Rattle.command_words.specs.Options.{options_data};
ghost use Rattle.command_words.specs.Words.{BuildOf};
ghost use Rattle.index_text.specs.Text.{index_text, IsIndex};
ghost use Rattle.pth_outside.specs.Files.{ReadsFiles, OfFile, contents};
ghost use Rattle.pth_outside.specs.Keys.{keys_of};
ghost use Rattle.pth_top.specs.Build.{build_result, index_file_of, IsIndexFile};
ghost use Rattle.pth_top.specs.Done.{done_of};
ghost use Rattle.pth_top.specs.Ending.{Ends};

use crate::answer::{Answer, NewFile, Stop};
use crate::finish::finish;
use crate::lists::build_list;
use crate::summary::summary_text;
use bucket_map::NoMemory;
use command_words::{Encoding, Options};
use hem_build::Built;
use index_file::write_index;
use pth_outside::{Files, Sink};
use std::alloc::Global;
use std::sync::Wait;
use std::thread::Threads;
use turn_search::Gate;

/// Reads a key file, builds its index and writes it under a name, hands over its summary or why there is none, and answers
/// the status.
pub fn build_command<R: Threads + Wait + Sync, F: Files, O: Sink, G: Gate>(
    rt: &R,
    alloc: Global,
    keys: &str,
    index: &str,
    options: &Options,
    files: &mut F,
    out: &mut O,
    gate: &G,
) -> u8
    ensures { Ends (Ok (BuildOf keys.now index.now (options_data options.now))) result
        (F.state files.old) (F.state files.new) (O.state out.old) (O.state out.new) }
{
    let answer = build(rt, alloc, keys, index, options, files, gate);
    finish(alloc, answer, files, out)
}

// The file of the index of the keys of a file, under a name, or why there is none.
fn build<R: Threads + Wait + Sync, F: Files, G: Gate>(
    rt: &R,
    alloc: Global,
    keys: &str,
    index: &str,
    options: &Options,
    files: &mut F,
    gate: &G,
) -> Result<Answer, Stop>
    ensures done { IfOk result (λ answer. OfFile (F.state files.old).told keys.now (λ bytes.
        build_result index.now (options_data options.now) bytes ≡ done_of answer)) }
    ensures index { IfOk result (λ answer. answer.status ≡ 0 →
        OfFile (F.state files.old).told keys.now (λ bytes.
        IsSomeAnd (done_of answer).file
        (IsIndexFile index.now (options_data options.now) (keys_of bytes)))) }
    // No file changes yet, whatever the answer.
    ensures leaves { ReadsFiles (F.state files.old) (F.state files.new)
        (IsErrOf result Stop.Fault) (contents (F.state files.old).told keys.now ≡ None) }
{
    match build_list(rt, alloc, files, keys, options, gate)? {
        Ok(built) => Ok(index_answer(alloc, &built, index, options.enc)?),
        Err(refusal) => Ok(refusal),
    }
}

// The answer on an index that was built, with its file.
fn index_answer(alloc: Global, built: &Built, name: &str, enc: Encoding) -> Result<Answer, NoMemory>
    ensures done { IfOk result (λ answer. done_of answer ≡ index_file_of name.now enc built.now) }
    ensures index { OnOk result (IsIndex (index_text built.now enc) built.now enc) }
{
    let mut bytes = Vec::new(alloc);
    if write_index(built, enc, &mut bytes).is_err() {
        return Err(NoMemory);
    }
    let text = summary_text(alloc, built, bytes.len() as u64)?;
    let name = String::from_str(alloc, name)?;
    Ok(Answer {
        status: 0,
        text,
        file: Some(NewFile { name, bytes }),
    })
}
