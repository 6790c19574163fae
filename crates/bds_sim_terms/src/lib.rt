//! Runs of the machine are runs of the program.
#![tactic(auto)]

mod laws;

pub use laws::{opening_stands, runs_agree, turns_agree};
