// Why words are refused.
ghost use Rattle.command_words.specs.declared.faults.WordsErr.TheVariants.{NoMemory as NoRoom};
ghost use Rattle.command_words.specs.declared.faults.Refusal.TheVariants.{NoMemory as OutOfMemory};
ghost use Rattle.std.specs.Prelude.{◌≡◌};

use std::alloc::{AllocError, AllocFailed};

/// The first faulty word, counted from 0, and the kind of its fault, one of `kinds`.
#[derive(Clone, Copy, Debug, PartialEq, Eq)]
pub struct WordFault {
    pub word: u64,
    pub kind: u8,
}

/// Why words give no command.
#[derive(Clone, Copy, Debug, PartialEq, Eq)]
pub enum WordsErr {
    Bad(WordFault),
    NoMemory,
}

impl From<AllocError> for WordsErr {
    ghost from_gives = { λ _ e. e ≡ NoRoom };

    fn from(_: AllocError) -> Self {
        WordsErr::NoMemory
    }
}

// Why a word is refused, whichever word it is.
#[derive(Clone, Copy)]
pub(crate) enum Refusal {
    Kind(u8),
    NoMemory,
}

impl From<AllocError> for Refusal {
    ghost from_gives = { λ _ e. e ≡ OutOfMemory };

    fn from(_: AllocError) -> Self {
        Refusal::NoMemory
    }
}

impl<T: Drop> From<AllocFailed<T>> for Refusal {
    ghost from_gives = { λ _ e. e ≡ OutOfMemory };

    fn from(_: AllocFailed<T>) -> Self {
        Refusal::NoMemory
    }
}
