//! Worked rows of a state that begins, and goes from point to point or to its end: tests alone.
#![tactic(auto)]

#[cfg(test)]
mod states;
