//! The terms of acts that hold no statement: commands with their options, goals and calls that run beside.
#![tactic(auto)]

mod acts;
mod commands;

pub use acts::plain_act;
