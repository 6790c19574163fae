//! Lines, statements and blocks, read off the front of the tokens.
#![tactic(auto)]

mod braces;
mod control;
mod heads;
mod lines;
mod plain;
mod stmts;
mod switches;

pub use stmts::{block, statement};
