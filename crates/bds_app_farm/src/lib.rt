//! A job whose tasks are run elsewhere: two commands of the user submit them and tell their ends.
#![tactic(auto)]

mod farming;

pub use farming::farm_job;
