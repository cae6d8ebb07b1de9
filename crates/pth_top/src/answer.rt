// What a command answers, or why it gave up.
ghost use Rattle.std.specs.Prelude.{◌≡◌, ◌≢◌, ◌≤◌, IsSome};
ghost use Rattle.pth_top.specs.Statuses.{IsOfCommand};
ghost use Rattle.pth_top.specs.declared.answer.Stop.TheVariants.{NoMemory as OutOfMemory};
ghost use Rattle.pth_top.specs.declared.TheConstants.{WORDS_REFUSED, CHECK_FAILED};

use bucket_map::NoMemory;
use std::alloc::AllocError;

/// A file that a command gives.
#[derive(Drop)]
pub struct NewFile {
    pub name: String,
    pub bytes: Vec<u8>,
}

/// The status and the text of a command that was done, and a file if it gives one.
#[derive(Drop)]
pub struct Answer {
    pub status: u8,
    pub text: String,
    pub file: Option<NewFile>,
    pub ghost own: { IsOfCommand status },
    pub ghost asked: { status ≢ WORDS_REFUSED },
    pub ghost few: { status ≤ CHECK_FAILED },
    pub ghost done: { IsSome file → status ≡ 0 },
}

/// Why a command was not done.
#[derive(Clone, Copy, Debug, PartialEq, Eq)]
pub enum Stop {
    /// A call on the files failed.
    Fault,
    NoMemory,
}

impl From<AllocError> for Stop {
    ghost from_gives = { λ _ e. e ≡ OutOfMemory };

    fn from(_: AllocError) -> Self {
        Stop::NoMemory
    }
}

impl From<NoMemory> for Stop {
    ghost from_gives = { λ _ e. e ≡ OutOfMemory };

    fn from(_: NoMemory) -> Self {
        Stop::NoMemory
    }
}
