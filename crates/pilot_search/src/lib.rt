//! The search for pilots of PTHash (Pibiri and Trani, SIGIR 2021), one bucket after another.
#![tactic(auto)]

mod adopting;
mod bits;
mod fit;
mod groups;
mod occupancy;
mod pilot;
mod placing;
mod plan;
mod repeats;
mod rounds;
mod scratch;
mod shares;
mod single;
#[cfg(test)]
mod stamp_tests;
mod stamps;
#[cfg(test)]
mod tests;

pub use crate::adopting::{adopt, spread};
pub use crate::occupancy::Occupancy;
pub use crate::placing::{Placed, Stuck, place, place_from};
pub use crate::plan::Plan;
pub use crate::rounds::place_rounds;
pub use crate::scratch::Scratch;
pub use crate::single::place_one;
