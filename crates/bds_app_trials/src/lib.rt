//! Trying a script out: a script is run where nothing is done outside, and so is each of its tests.
#![tactic(auto)]

mod dry;
mod judging;
mod lines;
mod one_test;
mod sizes;
mod testing;
mod turns;

pub use dry::dry_script;
pub use testing::test_script;
