//! The parser of scripts.
#![tactic(auto)]

mod parts;
mod whole;

pub use whole::{at_most_one, script};
