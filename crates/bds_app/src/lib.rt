//! The top call of bds, from words to an answer, over any host.
#![tactic(auto)]

mod answer;
mod commands;
mod jobs;
mod laws;
mod making;
mod process;

pub use answer::bds;
pub use bds_app_run::Outcome;
pub use jobs::run_job;
pub use laws::{runs_are_whole, stops_make_one_run};
pub use process::{run, run_process};

/// The processors with which a script is run that is made from a number.
pub const MADE_PROCESSORS: u32 = 4;
