//! A job whose log is written, and the replay of a log.
#![tactic(auto)]

mod asking;
mod logging;
mod printing;
mod replaying;

pub use logging::log_job;
pub use replaying::replay_log;
