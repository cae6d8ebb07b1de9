//! Tests of the crates of lists: bits, lists that rise, and the codes of pilots.
#![tactic(auto)]

#[cfg(test)]
mod bits;
#[cfg(test)]
mod pilot_lists;
#[cfg(test)]
mod rising_lists;
