// Reads the keys of a file.
ghost use Rattle.std.specs.Prelude.{◌≡◌, ◌≤◌, ℕ, Some, None, length, take, IfOk, IsErrOf};
ghost use Rattle.pth_outside.specs.Files.{ReadsFiles, OfFile, contents};
ghost use Rattle.pth_outside.specs.Keys.{keys_of, first_too_long, AreTooMany};
ghost use Rattle.pth_outside.specs.declared.key_file.KeysErr.TheVariants.{NoMemory as OutOfMemory};

use crate::{Files, KeyList, LineErr, LineReader, NoMemory};
use std::alloc::Global;

/// Why there is no list of keys.
#[derive(Clone, Copy, Debug, PartialEq, Eq)]
pub enum KeysErr {
    /// The file is missing, or the outside failed.
    Fault,
    /// The line with this number, counted from 1, is the first that has more than 65,535 bytes.
    TooLong { line: u64 },
    /// The file has more lines than the caller takes.
    TooMany,
    NoMemory,
}

impl From<NoMemory> for KeysErr {
    ghost from_gives = { λ _ e. e ≡ OutOfMemory };

    fn from(_: NoMemory) -> Self {
        KeysErr::NoMemory
    }
}

/// The keys of a file that has at most `most` lines.
pub fn read_keys<F: Files>(
    alloc: Global,
    files: &mut F,
    name: &str,
    most: u64,
) -> Result<KeyList, KeysErr>
    requires { most ≤ 67108864 }
    ensures ok { IfOk result (λ keys.
        OfFile (F.state files.old).told name.now (λ bytes. keys ≡ keys_of bytes)) }
    ensures bound { IfOk result (λ keys. length keys ≤ most) }
    ensures short { IfOk result (λ keys. first_too_long keys ≡ None) }
    ensures too_long { (line : ℕ) → IsErrOf result (KeysErr.TooLong line) →
        OfFile (F.state files.old).told name.now (λ bytes.
        first_too_long (take most (keys_of bytes)) ≡ Some line) }
    ensures too_many { IsErrOf result KeysErr.TooMany →
        OfFile (F.state files.old).told name.now (λ bytes. AreTooMany most (keys_of bytes)) }
    ensures leaves { ReadsFiles (F.state files.old) (F.state files.new)
        (IsErrOf result KeysErr.Fault) (contents (F.state files.old).told name.now ≡ None) }
{
    let mut reader = LineReader::new(alloc, name)?;
    let mut keys = KeyList::new(alloc);
    loop {
        let full = keys.len() == most;
        match reader.find_line(files) {
            Ok(None) => return Ok(keys),
            Ok(Some(span)) => {
                if full {
                    return Err(KeysErr::TooMany);
                }
                keys.push(reader.line(span))?;
                reader.pass(span);
            }
            Err(LineErr::TooLong { line }) => {
                if full {
                    return Err(KeysErr::TooMany);
                }
                return Err(KeysErr::TooLong { line });
            }
            Err(LineErr::Fault) => return Err(KeysErr::Fault),
            Err(LineErr::NoMemory) => return Err(KeysErr::NoMemory),
        }
    }
}
