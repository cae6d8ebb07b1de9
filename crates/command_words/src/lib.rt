//! Reads the words after the program's name: the command, its names and its settings.
#![tactic(auto)]

mod chosen;
mod demo;
mod faults;
/// The kinds of faults, by their numbers.
pub mod kinds;
mod names;
mod number;
mod options;
mod values;
mod words;

pub use chosen::default_options;
pub use demo::{Demo, MAX_DEMO_KEYS};
pub use faults::{WordFault, WordsErr};
pub use options::Options;
pub use settings::{Code, Encoding, How, Map, Settings, Shape};
pub use words::{Command, read_words};
