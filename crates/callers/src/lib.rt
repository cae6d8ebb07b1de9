//! The short callers that the READMEs of the crates show.
#![tactic(auto)]

mod bits;
mod buckets;
mod built_indexes;
mod chains;
mod checks;
mod codes;
mod commands;
mod divisors;
mod files;
mod hashes;
mod lists;
mod lookups;
mod partitions;
mod rising_round_trips;
mod round_trips;
mod searches;
mod spills;
mod turns;

pub use bits::set_bits;
pub use buckets::first_size;
pub use built_indexes::{built_number_read_again, index_of_keys, index_read_again};
pub use chains::three_chains;
pub use checks::mark_of_lines;
pub use codes::dictionary;
pub use commands::compared_files;
pub use divisors::remainders;
pub use files::small;
pub use hashes::position;
pub use lists::last;
pub use lookups::{number_of_key, number_read_again};
pub use partitions::numbers_of_records;
pub use rising_round_trips::rising_read_again;
pub use round_trips::value_read_again;
pub use searches::pilots;
pub use spills::spill;
pub use turns::pilots_by_turns;
