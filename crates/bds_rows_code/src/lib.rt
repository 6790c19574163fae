//! Worked rows of code, of its verifier and of its machine: tests alone, so that the crates that they call are proved once.
#![tactic(auto)]

#[cfg(test)]
mod effects;
#[cfg(test)]
mod frames;
#[cfg(test)]
mod machine;
#[cfg(test)]
mod units;
#[cfg(test)]
mod verifying;
