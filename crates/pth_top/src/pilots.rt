// The command `pilots`.
ghost use Rattle.std.specs.Prelude.{◌≡◌, Ok, IfOk, IsErrOf, None};
ghost use Rattle.command_words.specs.Options.{options_data};
ghost use Rattle.command_words.specs.Words.{PilotsOf};
ghost use Rattle.pth_outside.specs.Files.{ReadsFiles, OfFile, contents};
ghost use Rattle.pth_top.specs.Done.{done_of};
ghost use Rattle.pth_top.specs.Ending.{Ends};
ghost use Rattle.pth_top.specs.Pilots.{pilots_of_index, pilots_result};

use crate::answer::{Answer, Stop};
use crate::finish::finish;
use crate::lists::build_list;
use crate::text::built_text;
use command_words::Options;
use hem_build::Built;
use pth_outside::{Files, Sink};
use std::alloc::{AllocError, Global};
use std::sync::Wait;
use std::thread::Threads;
use turn_search::Gate;

/// Reads a key file, builds its index, hands over the pilots of its keys or why there are none, and answers the status.
pub fn pilots_command<R: Threads + Wait + Sync, F: Files, O: Sink, G: Gate>(
    rt: &R,
    alloc: Global,
    keys: &str,
    options: &Options,
    files: &mut F,
    out: &mut O,
    gate: &G,
) -> u8
    ensures { Ends (Ok (PilotsOf keys.now (options_data options.now))) result
        (F.state files.old) (F.state files.new) (O.state out.old) (O.state out.new) }
{
    let answer = pilots(rt, alloc, keys, options, files, gate);
    finish(alloc, answer, files, out)
}

// The pilots of the keys of a file, or why there are none.
fn pilots<R: Threads + Wait + Sync, F: Files, G: Gate>(
    rt: &R,
    alloc: Global,
    keys: &str,
    options: &Options,
    files: &mut F,
    gate: &G,
) -> Result<Answer, Stop>
    ensures done { IfOk result (λ answer. OfFile (F.state files.old).told keys.now (λ bytes.
        pilots_result (options_data options.now) bytes ≡ done_of answer)) }
    // No file changes, whatever the answer.
    ensures leaves { ReadsFiles (F.state files.old) (F.state files.new)
        (IsErrOf result Stop.Fault) (contents (F.state files.old).told keys.now ≡ None) }
{
    match build_list(rt, alloc, files, keys, options, gate)? {
        Ok(built) => Ok(pilots_answer(alloc, &built)?),
        Err(refusal) => Ok(refusal),
    }
}

// The answer on an index that was built.
fn pilots_answer(alloc: Global, built: &Built) -> Result<Answer, AllocError>
    ensures { IfOk result (λ answer. done_of answer ≡ pilots_of_index built.now) }
{
    let text = built_text(alloc, built)?;
    Ok(Answer {
        status: 0,
        text,
        file: None,
    })
}
