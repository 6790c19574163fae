//! Worked rows of tasks, rules, goals, states, checkpoints and texts for people: tests alone, so that the crates that they call are proved once.
#![tactic(auto)]

#[cfg(test)]
mod checkpoints;
#[cfg(test)]
mod goals;
#[cfg(test)]
mod many;
#[cfg(test)]
mod rules;
#[cfg(test)]
mod second_version;
#[cfg(test)]
mod tasks;
#[cfg(test)]
mod texts;
#[cfg(test)]
mod threads;
#[cfg(test)]
mod values;
