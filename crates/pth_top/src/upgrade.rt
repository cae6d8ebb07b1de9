// The command `upgrade`.
ghost use Rattle.std.specs.Prelude.{◌≡◌, Ok, Some, None, IfOk, IfSome, IsErrOf, string_bytes};
ghost use Rattle.command_words.specs.Words.{UpgradeOf};
ghost use Rattle.pth_outside.specs.Files.{ReadsFiles, OfFile, contents};
ghost use Rattle.pth_top.specs.Done.{done_of, said};
ghost use Rattle.pth_top.specs.Ending.{Ends};
ghost use Rattle.pth_top.specs.Texts.{already_marked, upgraded};
ghost use Rattle.pth_top.specs.Upgrade.{marked_file_of, upgraded_from, upgrade_result};
ghost use Rattle.pth_top.specs.Words.{command_result};

use crate::answer::{Answer, NewFile, Stop};
use crate::finish::finish;
use crate::marks::mark_of_file;
use crate::read::open_index;
use crate::text::push_number;
use bucket_map::NoMemory;
use index_file::{Index, write_marked};
use key_check::KeyMark;
use pth_outside::{Files, Sink};
use std::alloc::{AllocError, Global};

/// Reads an index and then the lines of a key file one by one, and gives the index their mark where it maps them one to one
/// onto the numbers below n and has none; hands over what was done, and answers the status. It waits for nothing.
pub fn upgrade_command<F: Files, O: Sink>(
    alloc: Global,
    index: &str,
    keys: &str,
    files: &mut F,
    out: &mut O,
) -> u8
    ensures { Ends (Ok (UpgradeOf index.now keys.now)) result
        (F.state files.old) (F.state files.new) (O.state out.old) (O.state out.new) }
{
    let answer = upgrade(alloc, index, keys, files);
    finish(alloc, answer, files, out)
}

// The file of an index with the mark of the lines of another file, or why there is none. A faulty index makes no call on
// the second file.
fn upgrade<F: Files>(alloc: Global, name: &str, keys: &str, files: &mut F) -> Result<Answer, Stop>
    ensures done { IfOk result (λ answer. IfSome (F.state files.old).told (λ m.
        command_result (Ok (UpgradeOf name.now keys.now)) m ≡ Some (done_of answer))) }
    // No file changes yet, whatever the answer.
    ensures leaves { ReadsFiles (F.state files.old) (F.state files.new)
        (IsErrOf result Stop.Fault) (IfSome (F.state files.old).told (λ m.
        command_result (Ok (UpgradeOf name.now keys.now)) m ≡ None)) }
{
    match open_index(alloc, files, name)? {
        Ok(index) => upgrade_by_lines(alloc, &index, name, keys, files),
        Err(refusal) => Ok(refusal),
    }
}

// The file of an index with the mark of the lines of a file, or why there is none.
fn upgrade_by_lines<F: Files>(
    alloc: Global,
    index: &Index,
    name: &str,
    keys: &str,
    files: &mut F,
) -> Result<Answer, Stop>
    ensures done { IfOk result (λ answer. OfFile (F.state files.old).told keys.now (λ bytes.
        upgrade_result name.now index.now bytes ≡ done_of answer)) }
    ensures leaves { ReadsFiles (F.state files.old) (F.state files.new)
        (IsErrOf result Stop.Fault) (contents (F.state files.old).told keys.now ≡ None) }
{
    match mark_of_file(alloc, index, files, keys)? {
        Ok(mark) => Ok(upgraded_answer(alloc, index, name, mark)?),
        Err(refusal) => Ok(refusal),
    }
}

// The answer on an index, by whether it has a mark, and on lines with this mark that check well.
fn upgraded_answer(
    alloc: Global,
    index: &Index,
    name: &str,
    mark: KeyMark,
) -> Result<Answer, NoMemory>
    ensures { IfOk result (λ answer.
        done_of answer ≡ upgraded_from name.now index.now index.now.index.mark mark) }
{
    match index.head().mark {
        Some(_) => Ok(already_answer(alloc)?),
        None => marked_answer(alloc, index, name, mark),
    }
}

// The answer on an index that has a mark.
fn already_answer(alloc: Global) -> Result<Answer, AllocError>
    ensures { IfOk result (λ answer. done_of answer ≡ said 0 already_marked) }
{
    let text = String::from_str(alloc, "already version 2\n")?;
    Ok(Answer {
        status: 0,
        text,
        file: None,
    })
}

// The answer on an index that gets this mark, with its file.
fn marked_answer(
    alloc: Global,
    index: &Index,
    name: &str,
    mark: KeyMark,
) -> Result<Answer, NoMemory>
    ensures { IfOk result (λ answer.
        done_of answer ≡ marked_file_of name.now index.now mark) }
{
    let mut bytes = Vec::new(alloc);
    if write_marked(index, mark, &mut bytes).is_err() {
        return Err(NoMemory);
    }
    let text = upgraded_text(alloc, index.head().n, bytes.len() as u64)?;
    let name = String::from_str(alloc, name)?;
    Ok(Answer {
        status: 0,
        text,
        file: Some(NewFile { name, bytes }),
    })
}

// What is said of a file that was given a mark.
fn upgraded_text(alloc: Global, keys: u64, bytes: u64) -> Result<String, AllocError>
    ensures { IfOk result (λ text. string_bytes text ≡ upgraded keys bytes) }
{
    let mut text = String::new(alloc);
    push_number(&mut text, "upgraded ", keys)?;
    push_number(&mut text, " keys bytes ", bytes)?;
    text.push_str("\n")?;
    Ok(text)
}
