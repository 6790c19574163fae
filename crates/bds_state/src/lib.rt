//! The whole state of a run, and its validity.
#![tactic(auto)]

mod held;
mod holders;
mod judge;
mod laws;
mod made;
mod ready;
mod state;

pub use held::{ended_holder, holder, look_behind};
pub use holders::Holders;
pub use judge::StateFault;
pub use laws::{
    faults_are_real, numbers_fit, ready_threads_are_found, states_stay_valid,
    threads_may_wait_for_what_they_made, valid_states_may_be_written, waits_are_settled,
};
pub use state::State;
