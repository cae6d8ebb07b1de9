//! The build of a list of keys over its seeds: an index, or why there is none.
#![tactic(auto)]

mod attempt;
mod build;
mod built;
mod clash;
mod cutting;
mod groups;
mod hashing;
mod mark;
mod pieces;
mod refusal;
mod workers;

pub use crate::build::build_keys;
pub use crate::built::Built;
pub use crate::refusal::{Causes, Refusal};
pub use build_outcome::{Cause, KeyMark};
pub use part_function::Part;
pub use settings::{How, MAX_KEYS, Map, Settings, Shape};
