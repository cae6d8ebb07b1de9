// The command `check`.
ghost use Rattle.std.specs.Prelude.{◌≡◌, Ok, Some, None, IfOk, IfSome, IsErrOf, string_bytes};
ghost use Rattle.command_words.specs.Words.{CheckOf};
ghost use Rattle.pth_outside.specs.Files.{ReadsFiles, OfFile, contents};
ghost use Rattle.pth_top.specs.Check.{check_result, good_result};
ghost use Rattle.pth_top.specs.Done.{done_of};
ghost use Rattle.pth_top.specs.Ending.{Ends};
ghost use Rattle.pth_top.specs.Texts.{good_keys};
ghost use Rattle.pth_top.specs.Words.{command_result};

use crate::answer::{Answer, Stop};
use crate::finish::finish;
use crate::marks::mark_of_file;
use crate::read::open_index;
use crate::text::push_number;
use index_file::Index;
use pth_outside::{Files, Sink};
use std::alloc::{AllocError, Global};

/// Reads an index and then the lines of a key file one by one, hands over whether the lines map one to one onto the numbers
/// below n, and answers the status. It waits for nothing.
pub fn check_command<F: Files, O: Sink>(
    alloc: Global,
    index: &str,
    keys: &str,
    files: &mut F,
    out: &mut O,
) -> u8
    ensures { Ends (Ok (CheckOf index.now keys.now)) result
        (F.state files.old) (F.state files.new) (O.state out.old) (O.state out.new) }
{
    let answer = check(alloc, index, keys, files);
    finish(alloc, answer, files, out)
}

// What the lines of a file come to under the index of another. A faulty index makes no call on the second file.
fn check<F: Files>(alloc: Global, index: &str, keys: &str, files: &mut F) -> Result<Answer, Stop>
    ensures done { IfOk result (λ answer. IfSome (F.state files.old).told (λ m.
        command_result (Ok (CheckOf index.now keys.now)) m ≡ Some (done_of answer))) }
    // No file changes, whatever the answer.
    ensures leaves { ReadsFiles (F.state files.old) (F.state files.new)
        (IsErrOf result Stop.Fault) (IfSome (F.state files.old).told (λ m.
        command_result (Ok (CheckOf index.now keys.now)) m ≡ None)) }
{
    match open_index(alloc, files, index)? {
        Ok(index) => check_lines(alloc, &index, keys, files),
        Err(refusal) => Ok(refusal),
    }
}

// What the lines of a file come to under an index.
fn check_lines<F: Files>(
    alloc: Global,
    index: &Index,
    keys: &str,
    files: &mut F,
) -> Result<Answer, Stop>
    ensures done { IfOk result (λ answer. OfFile (F.state files.old).told keys.now (λ bytes.
        check_result index.now bytes ≡ done_of answer)) }
    ensures leaves { ReadsFiles (F.state files.old) (F.state files.new)
        (IsErrOf result Stop.Fault) (contents (F.state files.old).told keys.now ≡ None) }
{
    match mark_of_file(alloc, index, files, keys)? {
        Ok(_) => Ok(good_answer(alloc, index)?),
        Err(refusal) => Ok(refusal),
    }
}

// The answer on lines that map one to one onto the numbers below n.
fn good_answer(alloc: Global, index: &Index) -> Result<Answer, AllocError>
    ensures { IfOk result (λ answer. done_of answer ≡ good_result index.now) }
{
    let text = good_text(alloc, index.head().n)?;
    Ok(Answer {
        status: 0,
        text,
        file: None,
    })
}

// What a list comes to whose lines map one to one onto the numbers below their count.
fn good_text(alloc: Global, keys: u64) -> Result<String, AllocError>
    ensures { IfOk result (λ text. string_bytes text ≡ good_keys keys) }
{
    let mut text = String::new(alloc);
    push_number(&mut text, "good ", keys)?;
    text.push_str(" keys\n")?;
    Ok(text)
}
