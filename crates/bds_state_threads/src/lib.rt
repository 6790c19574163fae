//! Threads of verified units: made and judged, and the numbers that they hold.
#![tactic(auto)]

mod fits;
mod judge;
mod made;
mod numbers;
mod own;
mod slots;
mod types;
mod units;

pub use judge::{ThreadFault, calls_hold_short_values, judge_thread, threads_are_judged_by_parts};
pub use made::{Threads, first_thread, new_thread};
pub use numbers::{thread_fits, valid_threads_may_be_written};
pub use units::unit_fits;
