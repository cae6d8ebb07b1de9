//! Tests of the searches by turns, of partitions and of whole builds.
#![tactic(auto)]

#[cfg(test)]
mod builds;
#[cfg(test)]
mod partitions;
#[cfg(test)]
mod turn_tables;
#[cfg(test)]
mod worker_count;
#[cfg(test)]
mod workers;
