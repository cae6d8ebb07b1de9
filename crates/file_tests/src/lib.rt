//! Tests of files and a sink in memory, and of what reads whole files, lines and keys.
#![tactic(auto)]

#[cfg(test)]
mod keys;
#[cfg(test)]
mod lines;
#[cfg(test)]
mod memory;
#[cfg(test)]
mod whole;
