// Words are read as a command.
ghost use Rattle.std.specs.Prelude.{◌≡◌, Ok, IfOk, IfSome, string_bytes};
ghost use Rattle.command_words.specs.Options.{words_of};
ghost use Rattle.command_words.specs.Words.{CheckOf, command_of};

use command_words::{Command, WordsErr, read_words};
use std::alloc::Global;

/// The index and the key file that words ask to be compared, or `None` where they ask for something else.
pub fn compared_files(alloc: Global, words: &[String]) -> Result<Option<(String, String)>, WordsErr>
    ensures { IfOk result (λ found. IfSome found (λ names. command_of (words_of words.now)
        ≡ Ok (CheckOf (string_bytes names.0) (string_bytes names.1)))) }
{
    match read_words(alloc, words)? {
        Command::Check { index, keys } => Ok(Some((index, keys))),
        _ => Ok(None),
    }
}
