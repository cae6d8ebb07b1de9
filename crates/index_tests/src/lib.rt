//! Tests of the files of indexes and of checks against them.
#![tactic(auto)]

#[cfg(test)]
mod built_files;
#[cfg(test)]
mod checks;
#[cfg(test)]
mod files;
