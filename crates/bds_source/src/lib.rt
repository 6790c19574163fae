//! The term in which the main thread of a typed script opens, as a value.
#![tactic(auto)]

mod blocks;
mod loops;
mod opening;
mod rights;
mod statements;
mod switches;

pub use opening::source_of;
