//! Terms of the source meaning for lines without a right side and for parts of the head of a `for`, and the names in force behind statements.
#![tactic(auto)]

mod in_force;
mod plain_lines;
mod smalls;

pub use in_force::{go_behind, go_behind_first, go_behind_top, leave_block};
pub use plain_lines::plain_line;
pub use smalls::{last_term, small_term};
