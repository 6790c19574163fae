//! Worked rows of logs and of hosts that stand around another: tests alone, so that what they call is proved once.
#![tactic(auto)]

#[cfg(test)]
mod dry;
#[cfg(test)]
mod farms;
#[cfg(test)]
mod logs;
#[cfg(test)]
mod polls;
#[cfg(test)]
mod recorded;
#[cfg(test)]
mod rows;
