//! Lists of numbers that don't fall, in few bits a number, with one spelling for each list.
#![tactic(auto)]

mod build;
mod fault;
mod list;
mod parts;
mod reading;
mod writing;

pub use bit_vector::NoMemory;
pub use fault::{COUNT, FormFault, LAST, ORDER, PADDING, ReadErr, SHORT, WIDTH};
pub use list::EliasFano;
pub use reading::{append_words, read_list, read_number};
pub use writing::put_numbers;
