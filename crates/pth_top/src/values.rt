// The values of the queries of a file.
ghost use Rattle.std.specs.Prelude.{◌≡◌, ◌++◌, ℕ, Some, None, List, OnOk, IfOk, IsErrOf, string_bytes, take};
ghost use Rattle.pthash.specs.declared.TheConstants.{MAX_KEYS};
ghost use Rattle.pth_outside.specs.Files.{ReadsFiles, OfFile, contents};
ghost use Rattle.pth_outside.specs.Keys.{keys_of, first_too_long, AreTooMany};
ghost use Rattle.pth_top.specs.Done.{done_of, said};
ghost use Rattle.pth_top.specs.Query.{query_result, value_line};

use crate::answer::{Answer, Stop};
use crate::lists::{too_long_answer, too_many_answer};
use crate::text::push_number;
use hem_build::MAX_KEYS;
use index_file::Index;
use pth_outside::{Files, KeysErr, Line, LineErr, LineReader, NoMemory};
use std::alloc::Global;

/// The values of the lines of a file in an index, or the refusal that the file deserves. It keeps no line but the one that
/// it is at, and the values are let go of before a refusal has its text.
pub fn values_of_file<F: Files>(
    alloc: Global,
    index: &Index,
    files: &mut F,
    name: &str,
) -> Result<Answer, Stop>
    ensures done { IfOk result (λ answer. OfFile (F.state files.old).told name.now (λ bytes.
        query_result index.now bytes ≡ done_of answer)) }
    ensures leaves { ReadsFiles (F.state files.old) (F.state files.new)
        (IsErrOf result Stop.Fault) (contents (F.state files.old).told name.now ≡ None) }
{
    match read_values(alloc, index, files, name) {
        Ok(text) => Ok(Answer {
            status: 0,
            text,
            file: None,
        }),
        Err(KeysErr::TooLong { line }) => Ok(too_long_answer(alloc, line)?),
        Err(KeysErr::TooMany) => Ok(too_many_answer(alloc, "queries", MAX_KEYS)?),
        Err(KeysErr::Fault) => Err(Stop::Fault),
        Err(KeysErr::NoMemory) => Err(Stop::NoMemory),
    }
}

// The text of the values of the lines of a file, which are read one by one.
fn read_values<F: Files>(
    alloc: Global,
    index: &Index,
    files: &mut F,
    name: &str,
) -> Result<String, KeysErr>
    ensures ok { IfOk result (λ text. OfFile (F.state files.old).told name.now (λ bytes.
        query_result index.now bytes ≡ said 0 (string_bytes text))) }
    ensures too_long { (line : ℕ) → IsErrOf result (KeysErr.TooLong line) →
        OfFile (F.state files.old).told name.now (λ bytes.
        first_too_long (take MAX_KEYS (keys_of bytes)) ≡ Some line) }
    ensures too_many { IsErrOf result KeysErr.TooMany →
        OfFile (F.state files.old).told name.now (λ bytes. AreTooMany MAX_KEYS (keys_of bytes)) }
    ensures leaves { ReadsFiles (F.state files.old) (F.state files.new)
        (IsErrOf result KeysErr.Fault) (contents (F.state files.old).told name.now ≡ None) }
{
    let mut reader = LineReader::new(alloc, name)?;
    let mut text = String::new(alloc);
    let mut line = Vec::new(alloc);
    let mut count = 0;
    loop {
        let full = count == MAX_KEYS;
        match reader.next_line(files, &mut line) {
            Ok(Line::End) => return Ok(text),
            Ok(Line::Got) => {
                if full {
                    return Err(KeysErr::TooMany);
                }
                push_value(&mut text, index.lookup(&line))?;
                count += 1;
            }
            Err(LineErr::TooLong { line }) => {
                if full {
                    return Err(KeysErr::TooMany);
                }
                return Err(KeysErr::TooLong { line });
            }
            Err(LineErr::Fault) => return Err(KeysErr::Fault),
            Err(LineErr::NoMemory) => return Err(KeysErr::NoMemory),
        }
    }
}

// Appends the line of a query with this value, or with none.
fn push_value(text: &mut String, value: Option<u64>) -> Result<(), NoMemory>
    ensures { OnOk result (string_bytes text.new ≡ string_bytes text.old ++ value_line value) }
{
    match value {
        Some(value) => push_number(text, "", value)?,
        None => text.push_str("-")?,
    }
    text.push_str("\n")?;
    Ok(())
}
