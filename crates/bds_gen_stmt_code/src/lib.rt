//! The code of statements, written in order behind what a function has.
#![tactic(auto)]

mod blocks;
mod body;
mod calls;
mod control;
mod functions;
mod jumps;
mod laws;
mod lines;
mod loops;
mod options;
mod places;
mod rights;
mod statements;
mod stmts;
mod switches;
mod tasks;

pub use body::{Body, Leap, Leaps, Unfinished, slot_number};
pub use functions::{Parameters, add_parameter, begin_function, no_parameters, write_ending};
pub use laws::{blocks_are_written, statements_are_written};
pub use statements::{gen_block, gen_stmt};
