//! Worked rows of the terms in which scripts open: tests alone, so that the crates that they call are proved once.
#![tactic(auto)]

#[cfg(test)]
mod opening;
