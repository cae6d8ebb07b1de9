//! Tests of the program: its words, and runs over files in memory.
#![tactic(auto)]

#[cfg(test)]
mod check_runs;
#[cfg(test)]
mod demo_runs;
#[cfg(test)]
mod index_runs;
#[cfg(test)]
mod pilot_runs;
#[cfg(test)]
mod stats_runs;
#[cfg(test)]
mod turn_runs;
#[cfg(test)]
mod upgrade_runs;
#[cfg(test)]
mod words;
