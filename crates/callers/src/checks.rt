// The lines of a file are checked under an index.
ghost use Rattle.std.specs.Prelude.{IfOk, IfSome};
ghost use Rattle.key_check.specs.Meaning.{IsGood};
ghost use Rattle.pth_outside.specs.Files.{OfFile};
ghost use Rattle.pth_outside.specs.Keys.{keys_of};

use index_file::Index;
use key_check::{CheckErr, Checked, KeyMark, check_keys};
use pth_outside::Files;
use std::alloc::Global;

/// The mark of the lines of a file, or `None` where they don't have the numbers below their count, each its own.
pub fn mark_of_lines<F: Files>(
    alloc: Global,
    index: &Index,
    files: &mut F,
    name: &str,
) -> Result<Option<KeyMark>, CheckErr>
    ensures { IfOk result (λ found. IfSome found (λ mark.
        OfFile (F.state files.old).told name.now (λ bytes.
        IsGood index.now.index (keys_of bytes) mark))) }
{
    match check_keys(alloc, index, files, name)? {
        Checked::Good { mark } => Ok(Some(mark)),
        _ => Ok(None),
    }
}
