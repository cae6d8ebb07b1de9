//! Index files: written, read with their first fault, and looked up.
#![tactic(auto)]

mod built;
mod counts;
mod fields;
mod held;
mod index;
mod lists;
mod partitions;
mod reading;
mod values;
mod writing;

pub use crate::built::write_index;
pub use crate::index::{Head, Index};
pub use crate::reading::read_index;
pub use crate::writing::write_marked;
pub use build_outcome::KeyMark;
pub use hem_build::Built;
pub use index_text::{IndexFault, MAX_BYTES};
pub use pilot_codecs::{Code, Encoding, NoMemory};
