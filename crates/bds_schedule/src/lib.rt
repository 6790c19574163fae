//! The schedule of threads and tasks stands in `specs/`; here stand its laws.
#![tactic(auto)]

mod laws;
mod schedule_laws;

pub use laws::lost_tasks_are_cancelled;
pub use schedule_laws::{
    cancelled_task_is_told, device_fault_is_told, diamond_is_planned, goal_without_rule,
    second_maker_is_told, tasks_take_processors,
};
