// Checks an index against the lines of a file.
ghost use Rattle.std.specs.Prelude.{◌≡◌, Ok, None, IfOk, IsErrOf};
ghost use Rattle.pth_outside.specs.Files.{ReadsFiles, OfFile, contents};
ghost use Rattle.pth_outside.specs.Keys.{keys_of};
ghost use Rattle.build_outcome.specs.Index.{KeyMarkData};
ghost use Rattle.key_check.specs.Checked.{checked};
ghost use Rattle.key_check.specs.Meaning.{IsGood};
ghost use Rattle.key_check.specs.declared.check.CheckErr.TheVariants.{NoMemory as OutOfMemory};

use crate::checked::Checked;
use crate::walk::Walk;
use index_file::Index;
use pth_outside::{Files, Line, LineErr, LineReader, NoMemory};
use std::alloc::{AllocError, Global};

/// Why a check came to nothing.
#[derive(Clone, Copy, Debug, PartialEq, Eq)]
pub enum CheckErr {
    /// The file is missing, or the outside failed.
    Fault,
    NoMemory,
}

impl From<NoMemory> for CheckErr {
    ghost from_gives = { λ _ e. e ≡ OutOfMemory };

    fn from(_: NoMemory) -> Self {
        CheckErr::NoMemory
    }
}

impl From<AllocError> for CheckErr {
    ghost from_gives = { λ _ e. e ≡ OutOfMemory };

    fn from(_: AllocError) -> Self {
        CheckErr::NoMemory
    }
}

/// Checks whether the lines of a file map one to one onto the numbers below n. It keeps no line but
/// the one that it is at, and 4 bytes and a bit for each value; it reads at most n + 1 lines.
pub fn check_keys<F: Files>(
    alloc: Global,
    index: &Index,
    files: &mut F,
    name: &str,
) -> Result<Checked, CheckErr>
    ensures ok { IfOk result (λ found. OfFile (F.state files.old).told name.now (λ bytes.
        found ≡ checked index.now.index (keys_of bytes))) }
    // What a good list is.
    ensures good { (mark : KeyMarkData) → result ≡ Ok (Checked.Good mark) →
        OfFile (F.state files.old).told name.now (λ bytes.
        IsGood index.now.index (keys_of bytes) mark) }
    ensures leaves { ReadsFiles (F.state files.old) (F.state files.new)
        (IsErrOf result CheckErr.Fault) (contents (F.state files.old).told name.now ≡ None) }
{
    let mut reader = LineReader::new(alloc, name)?;
    let mut walk = Walk::new(alloc, index)?;
    let mut line = Vec::new(alloc);
    loop {
        match reader.next_line(files, &mut line) {
            Ok(Line::Got) => {
                if let Some(fault) = walk.take_line(index, &line) {
                    return Ok(fault);
                }
            }
            Ok(Line::End) => return Ok(walk.end(index)),
            Err(LineErr::TooLong { line }) => return Ok(Checked::TooLong { line }),
            Err(LineErr::Fault) => return Err(CheckErr::Fault),
            Err(LineErr::NoMemory) => return Err(CheckErr::NoMemory),
        }
    }
}
