//! Tasks: commands that run beside the program.
#![tactic(auto)]

mod ends;
mod fields;
mod files;
mod keeping;
mod laws;
mod makers;
mod needs;
mod schedule;
mod starts;
mod table;
mod task;
mod waits;

pub use fields::read_tasks;
pub use laws::{
    bad_ends_cancel, tasks_are_cancelled, tasks_are_read_back, tasks_start_in_order,
    unfit_tasks_are_told,
};
pub use table::TaskTable;
pub use task::{AddFault, Task, TaskEnd, TaskNew, TaskState, Tasks, Waited};
