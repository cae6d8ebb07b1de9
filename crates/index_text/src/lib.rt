//! The bytes of an index file and their faults, as definitions that contracts cite.
#![tactic(auto)]

mod fault;
mod head;

pub use crate::fault::IndexFault;
pub use crate::head::{
    ALPHA_AT, BUCKETS_AT, DIGEST_LEN, HEAD_LEN, HeadFields, KEYS_AT, MAGIC, MARK_LEN, MARKED,
    MAX_BYTES, MIN_BYTES, PARTITIONS_AT, UNMARKED,
};
