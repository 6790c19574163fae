//! Laws of the meaning's histories: the definitions stand in `specs/`, and each law is the clause of a function.
#![tactic(auto)]

mod laws;

pub use laws::{
    goals_make_their_plan, good_ends_are_well, good_ends_stay, histories_keep_the_laws,
    histories_live_in_one, histories_tell, jobs_are_histories, jobs_keep_the_laws,
    laws_hold_behind_each_event, runs_end_at_rest, scripts_open_so, tasks_fit,
    tasks_start_behind_needs,
};
