//! The run of a state over a host: threads, tasks, rules and checkpoints under one schedule.
#![tactic(auto)]

mod contacts;
mod files;
mod giving;
mod requests;
mod running;
mod stamps;
mod tables;
mod turns;

pub use running::run_state;
