//! The tests of a typed script, and the program that each of them is run as.
#![tactic(auto)]

mod calls;
mod listing;
mod parts;
mod programs;

pub use listing::tests;
pub use programs::{base_of, give_back, test_of};
