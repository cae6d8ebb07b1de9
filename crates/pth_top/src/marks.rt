// The mark of a key file that an index maps one to one, or the refusal that the file deserves.
ghost use Rattle.std.specs.Prelude.{◌≡◌, ◌++◌, List, OnOk, IfOk, IsErrOf, None, string_bytes};
ghost use Rattle.pth_outside.specs.Files.{ReadsFiles, OfFile, contents};
ghost use Rattle.pth_top.specs.Check.{failed_result, mark_found, mark_in};
ghost use Rattle.pth_top.specs.Done.{done_of, or_refused};
ghost use Rattle.pth_top.specs.Texts.{no_value, repeats, fewer, differs};

use crate::CHECK_FAILED;
use crate::answer::{Answer, Stop};
use crate::lists::too_long_answer;
use crate::text::{push_mark, push_number};
use index_file::Index;
use key_check::{CheckErr, Checked, KeyMark, check_keys};
use pth_outside::Files;
use std::alloc::{AllocError, Global};

/// The mark of the lines of a file that map one to one onto the numbers below n under an index, or the refusal that the file
/// deserves.
pub fn mark_of_file<F: Files>(
    alloc: Global,
    index: &Index,
    files: &mut F,
    name: &str,
) -> Result<Result<KeyMark, Answer>, Stop>
    ensures done { IfOk result (λ end. OfFile (F.state files.old).told name.now (λ bytes.
        mark_in index.now bytes ≡ or_refused end)) }
    ensures leaves { ReadsFiles (F.state files.old) (F.state files.new)
        (IsErrOf result Stop.Fault) (contents (F.state files.old).told name.now ≡ None) }
{
    match check_keys(alloc, index, files, name) {
        Ok(found) => Ok(mark_by(alloc, found)?),
        Err(CheckErr::Fault) => Err(Stop::Fault),
        Err(CheckErr::NoMemory) => Err(Stop::NoMemory),
    }
}

// The mark of lines that check well, or their refusal.
fn mark_by(alloc: Global, found: Checked) -> Result<Result<KeyMark, Answer>, AllocError>
    ensures { IfOk result (λ end. mark_found found ≡ or_refused end) }
{
    match found {
        Checked::Good { mark } => Ok(Ok(mark)),
        Checked::TooLong { line } => Ok(Err(too_long_answer(alloc, line)?)),
        Checked::NoValue { line } => Ok(Err(failed(no_value_text(alloc, line)?))),
        Checked::Repeats { line, earlier } => Ok(Err(failed(repeats_text(alloc, line, earlier)?))),
        Checked::Counts { n, lines } => Ok(Err(failed(fewer_text(alloc, n, lines)?))),
        Checked::Differs { kept, counted } => Ok(Err(failed(differs_text(alloc, kept, counted)?))),
    }
}

// The refusal of lines that don't check well, with this text.
fn failed(text: String) -> Answer
    ensures { done_of result ≡ failed_result (string_bytes text) }
{
    Answer {
        status: CHECK_FAILED,
        text,
        file: None,
    }
}

// The refusal of a line that has no value, by its number from 1.
fn no_value_text(alloc: Global, number: u64) -> Result<String, AllocError>
    ensures { IfOk result (λ text. string_bytes text ≡ no_value number) }
{
    let mut text = String::new(alloc);
    push_number(&mut text, "line ", number)?;
    text.push_str(" has no value\n")?;
    Ok(text)
}

// The refusal of a line that has the value of an earlier one, by their numbers from 1.
fn repeats_text(alloc: Global, number: u64, earlier: u64) -> Result<String, AllocError>
    ensures { IfOk result (λ text. string_bytes text ≡ repeats number earlier) }
{
    let mut text = String::new(alloc);
    push_number(&mut text, "line ", number)?;
    push_number(&mut text, " repeats line ", earlier)?;
    text.push_str("\n")?;
    Ok(text)
}

// The refusal of a list with fewer lines than an index has keys.
fn fewer_text(alloc: Global, keys: u64, lines: u64) -> Result<String, AllocError>
    ensures { IfOk result (λ text. string_bytes text ≡ fewer keys lines) }
{
    let mut text = String::new(alloc);
    push_number(&mut text, "index has ", keys)?;
    push_number(&mut text, " keys, list has ", lines)?;
    text.push_str("\n")?;
    Ok(text)
}

// The refusal of a list with another mark than an index keeps.
fn differs_text(alloc: Global, kept: KeyMark, counted: KeyMark) -> Result<String, AllocError>
    ensures { IfOk result (λ text. string_bytes text ≡ differs kept counted) }
{
    let mut text = String::from_str(alloc, "keys differ: ")?;
    push_mark(alloc, &mut text, "kept ", kept)?;
    push_mark(alloc, &mut text, " counted ", counted)?;
    text.push_str("\n")?;
    Ok(text)
}
