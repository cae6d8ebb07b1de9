//! What a build of a list of keys comes to, as definitions that contracts cite.
#![tactic(auto)]

mod mark;

pub use crate::mark::KeyMark;

/// Why a seed did not succeed.
#[derive(Clone, Copy, Debug, PartialEq, Eq)]
pub enum Cause {
    /// The keys at these places, counted from 0, have the same pair of hashes.
    SameHash { first: u64, second: u64 },
    /// This bucket of this partition has no pilot.
    Stuck { part: u32, bucket: u64 },
}
