//! Goals: which files a goal reaches, and the plan that makes them.
#![tactic(auto)]

mod counts;
mod due;
mod faults;
mod indexes;
mod laws;
mod marks;
mod needed;
mod order;
mod planning;
mod reach;
mod rising;
mod spreading;
mod stamps;
mod wanted;

pub use faults::{FilesFault, PlanFault};
pub use laws::{plan_is_computed, reach_is_computed};
pub use planning::plan;
pub use reach::files;
