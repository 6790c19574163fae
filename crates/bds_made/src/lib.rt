//! The script that is made from a number is never refused, and its ticks are never spent.
#![tactic(auto)]

mod laws;

pub use laws::{
    made_scripts_are_never_refused, made_scripts_are_never_spent, straight_runs_are_never_spent,
};
