//! The walk of the checker through statements.
#![tactic(auto)]

mod cases;
mod lines;
mod stmts;

pub use lines::walk_right;
pub use stmts::{walk_block, walk_stmt_form};
