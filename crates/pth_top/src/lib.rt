//! What the program does: its words, its commands and its texts.
#![tactic(auto)]

mod answer;
mod build;
mod check;
mod demo;
mod finish;
mod lists;
mod marks;
mod pilots;
mod query;
mod read;
mod stats;
mod summary;
mod text;
mod top;
mod upgrade;
mod values;

pub use check::check_command;
pub use command_words::{Command, Options, WordFault, WordsErr, read_words};
pub use finish::show_want;
pub use query::query_command;
pub use settings::{Code, Encoding, How, Map, Settings, Shape};
pub use stats::stats_command;
pub use top::run;
pub use upgrade::upgrade_command;

// The statuses.
const WORDS_REFUSED: u8 = 1;

const FILE_FAULT: u8 = 2;

const LIST_REFUSED: u8 = 3;

const REPEATED_KEY: u8 = 4;

const SEEDS_EXHAUSTED: u8 = 5;

const INDEX_REFUSED: u8 = 6;

const CHECK_FAILED: u8 = 7;

const FAILED_OUTPUT: u8 = 8;

/// The status where memory ran out.
pub const NO_MEMORY: u8 = 9;
