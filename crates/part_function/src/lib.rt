//! One partition of a list of keys as a function from pairs of hashes to the numbers below its key count.
#![tactic(auto)]

mod build;
mod equal_members;
mod free_positions;
mod numbering;
mod part;

pub use crate::build::{build_part, build_part_with};
pub use crate::free_positions::free_list;
pub use crate::part::Part;
pub use bucket_map::NoMemory;
pub use settings::How;
