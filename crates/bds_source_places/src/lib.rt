//! The terms of changes of variables and of their parts, and of calls that stand alone.
#![tactic(auto)]

mod calls;
mod places;
mod updates;

pub use calls::call_term;
pub use places::{change_of, changed, step_term};
