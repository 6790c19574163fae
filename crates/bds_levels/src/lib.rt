//! A list of numbers, of which the first that is at most another is found without a search.
#![tactic(auto)]

mod changing;
mod finding;
mod levels;
mod making;

pub use levels::{Levels, NEVER};
