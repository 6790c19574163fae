//! Worked rows of names, types and the generator: tests alone, so that the crates that they call are proved once.
#![tactic(auto)]

#[cfg(test)]
mod acts;
#[cfg(test)]
mod exprs;
#[cfg(test)]
mod made;
#[cfg(test)]
mod names;
#[cfg(test)]
mod showing;
#[cfg(test)]
mod stmts;
#[cfg(test)]
mod types;
#[cfg(test)]
mod units;
#[cfg(test)]
mod words;
