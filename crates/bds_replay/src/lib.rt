//! The replies of a call: stored by a host that stands around another, written as a log, read again, and given again.
#![tactic(auto)]

mod fitting;
mod laws;
mod loading;
mod log;
mod reading;
mod recorder;
mod replayed;
mod writing;

pub use laws::logs_are_read_back;
pub use loading::read_log;
pub use log::{Job, Log, LogFault};
pub use recorder::Recorder;
pub use replayed::{Given, Replayed};
pub use writing::write_log;
