//! What the commands on a script and on a file do, over any host: a script is run or checked, a saved state goes on or is
//! described.
#![tactic(auto)]

mod asking;
mod call;
mod checking;
mod copies;
mod determined;
mod ending;
mod files;
mod jobs;
mod laws;
mod opening;
mod outcome;
mod printing;
mod refusals;
mod running;
mod scripts;
mod stop;

pub use asking::{print_err, read_file};
pub use call::Call;
pub use checking::check_script;
pub use determined::{files_are_determined, scripts_are_determined};
pub use ending::Ending;
pub use files::{describe_file, resume_file};
pub use jobs::run_job;
pub use laws::script_is_loaded_as_jobs_read;
pub use outcome::Outcome;
pub use printing::{print, say, tell, tell_device};
pub use refusals::fault_of;
pub use running::run_typed;
pub use scripts::run_script;
pub use stop::Stop;
