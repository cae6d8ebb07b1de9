//! Whether the lines of a file map one to one onto the numbers below n.
#![tactic(auto)]

mod check;
mod checked;
mod walk;

pub use crate::check::{CheckErr, check_keys};
pub use crate::checked::Checked;
pub use build_outcome::KeyMark;
pub use index_file::Index;
