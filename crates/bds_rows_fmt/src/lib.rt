//! Worked rows of canonical texts: tests alone, so that the crate that they call is proved once.
#![tactic(auto)]

#[cfg(test)]
mod formatting;
