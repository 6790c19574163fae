//! A host whose tasks are run elsewhere: one command of the user submits them, another tells their ends.
#![tactic(auto)]

mod farm;
mod known;
mod laws;
mod learning;
mod lines;
mod names;
mod polling;
mod replying;
mod sending;
mod starting;

pub use farm::{Farm, Farmed};
pub use laws::ends_are_learnt;
