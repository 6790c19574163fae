//! How many instructions the code of typed statements has, counted before any is made.
#![tactic(auto)]

mod exprs;
mod names;
mod pieces;
mod places;
mod script;
mod settings;
mod stmts;
mod tasks;

pub use script::program_size;
pub use settings::{names_given, value_for};
pub use stmts::{act_pars_size, block_size, line_size, right_pars_size, stmt_size};
