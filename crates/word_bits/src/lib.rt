//! Words for one bit of a run of 64-bit words.
#![tactic(auto)]
