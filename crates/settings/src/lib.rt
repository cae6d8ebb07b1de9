//! What a build of a list of keys is told: its settings, their ranges and their defaults.
#![tactic(auto)]

mod how;
mod settings;

pub use bucket_map::{
    MAX_ALPHA, MAX_C, MAX_KEYS, MAX_PARTITIONS, MAX_PILOTS, MIN_ALPHA, MIN_C, Map, Shape,
};
pub use how::How;
pub use pilot_codecs::{Code, Encoding};
pub use settings::{
    DEFAULT_ALPHA, DEFAULT_BLOCKS, DEFAULT_C, DEFAULT_ENCODING, DEFAULT_MAP, DEFAULT_PARTITIONS,
    DEFAULT_PILOTS, DEFAULT_SEEDS, DEFAULT_WORKERS, MAX_BLOCKS, MAX_SEEDS, MAX_WORKERS, Settings,
};
