//! Worked rows of tokens and trees that no script shows: tests alone, so that the crates that they call are proved once.
#![tactic(auto)]

#[cfg(test)]
mod lexing;
#[cfg(test)]
mod parsing;
#[cfg(test)]
mod trees;
