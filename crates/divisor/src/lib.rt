//! Remainders by one divisor, without a division for each.
#![tactic(auto)]

mod reciprocal;
#[cfg(test)]
mod tests;

pub use crate::reciprocal::Divisor;
