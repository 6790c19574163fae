//! The walk of the checker through what statements are made of.
#![tactic(auto)]

mod acts;
mod commands;
mod places;
mod settings;
mod smalls;
mod stmt_closing;

pub use acts::{walk_dep, walk_task};
pub use places::{walk_place, walk_step};
pub use smalls::{walk_last, walk_maybe, walk_small};
pub use stmt_closing::{close_act, close_par, close_stmt, leave_block, returned};
