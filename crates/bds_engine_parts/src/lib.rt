//! What the run of a state asks of it, and what its answer says.
#![tactic(auto)]

mod ids;
mod laws;
mod looks;
mod states;
mod stop;

pub use ids::{IdFault, ids_of, task_id, thread_id};
pub use laws::{ends_have_causes, states_are_saved_as_they_are, states_look_the_same};
pub use looks::all_ended;
pub use states::{ready, waited};
pub use stop::RunStop;
