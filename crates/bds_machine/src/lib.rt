//! The machine: runs the code of a thread from point to point.
#![tactic(auto)]

mod ahead;
mod answers;
mod asks;
mod behind;
mod calls;
mod growing;
mod looks;
mod number_rows;
mod numbers;
mod point;
mod running;
mod table;
mod tasks;
mod validity;

pub use answers::{give, points_carry_what_fits, points_tell_answers};
pub use behind::{instr_behind, line_behind, types_count_answers};
pub use point::{Answer, Point};
pub use running::run_to_point;
pub use validity::{methods_take_their_rows, rows_keep_threads_valid};
