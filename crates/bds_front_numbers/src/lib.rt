//! The number of a file at each node of a part of a script, written in place.
#![tactic(auto)]

mod exprs;
mod parts;
mod places;
mod stmts;

pub use parts::number_part;
