//! A search that several threads share: each bucket takes its turn, and pilots are tested before their turn comes.
#![tactic(auto)]

mod board;
mod claiming;
mod closing;
mod committing;
mod gate;
mod groups;
mod hashes;
mod layout;
mod plays;
mod retesting;
mod searching;
mod table;
mod trying;
mod turns;
mod working;

pub use crate::claiming::Claim;
pub use crate::closing::Ended;
pub use crate::gate::{FreeGate, Gate};
pub use crate::searching::search_turns;
pub use crate::table::{Pass, TurnTable};
pub use crate::trying::{Candidate, Spec};
pub use crate::turns::Turn;
