// Reads a file whole.
ghost use Rattle.std.specs.Prelude.{◌≡◌, ◌≤◌, IfOk, IsErrOf, None, vec_len};
ghost use Rattle.pth_outside.specs.Files.{ReadsFiles, HasBytes, IsLonger, contents};
ghost use Rattle.pth_outside.specs.declared.whole.WholeErr.TheVariants.{NoMemory as OutOfMemory};

use crate::{FileErr, Files};
use std::alloc::{AllocError, AllocFailed, Global};

// How many bytes are asked for at a time.
const PIECE: usize = 65536;

/// Why a file wasn't read whole.
#[derive(Clone, Copy, Debug, PartialEq, Eq)]
pub enum WholeErr {
    /// The file is missing, or the outside failed.
    Fault,
    /// The file has more bytes than the caller takes.
    TooLarge,
    NoMemory,
}

impl From<AllocError> for WholeErr {
    ghost from_gives = { λ _ e. e ≡ OutOfMemory };

    fn from(_: AllocError) -> Self {
        WholeErr::NoMemory
    }
}

impl<T: Drop> From<AllocFailed<T>> for WholeErr {
    ghost from_gives = { λ _ e. e ≡ OutOfMemory };

    fn from(_: AllocFailed<T>) -> Self {
        WholeErr::NoMemory
    }
}

// A buffer of this many zero bytes.
pub(crate) fn zeros(alloc: Global, len: usize) -> Result<Vec<u8>, AllocError>
    ensures { IfOk result (λ buffer. vec_len buffer ≡ len) }
{
    vec![in alloc; 0; len]
}

/// The bytes of a file that has at most `most` of them.
pub fn read_whole<F: Files>(
    alloc: Global,
    files: &mut F,
    name: &str,
    most: u64,
) -> Result<Vec<u8>, WholeErr>
    ensures ok { IfOk result (λ bytes.
        HasBytes (F.state files.old).told name.now bytes.items) }
    ensures bound { IfOk result (λ bytes. vec_len bytes ≤ most) }
    ensures too_large { IsErrOf result WholeErr.TooLarge →
        IsLonger (F.state files.old).told name.now most }
    ensures leaves { ReadsFiles (F.state files.old) (F.state files.new)
        (IsErrOf result WholeErr.Fault) (contents (F.state files.old).told name.now ≡ None) }
{
    let mut piece = zeros(alloc, PIECE)?;
    let mut bytes = Vec::new(alloc);
    loop {
        let count = match files.read_at(name, bytes.len() as u64, piece.as_mut_slice()) {
            Ok(count) => count,
            Err(FileErr::Failed) => return Err(WholeErr::Fault),
            Err(FileErr::NoMemory) => return Err(WholeErr::NoMemory),
        };
        if count == 0 {
            return Ok(bytes);
        }
        if count as u64 > most - bytes.len() as u64 {
            return Err(WholeErr::TooLarge);
        }
        bytes.extend_from_slice(&piece[..count])?;
    }
}
