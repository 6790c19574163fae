//! Worked rows of values, of methods and of the outside: tests alone, so that the crates that they call are proved once.
#![tactic(auto)]

#[cfg(test)]
mod changes;
#[cfg(test)]
mod fields;
#[cfg(test)]
mod made;
#[cfg(test)]
mod messages;
#[cfg(test)]
mod methods;
#[cfg(test)]
mod numbering;
#[cfg(test)]
mod outside;
#[cfg(test)]
mod places;
#[cfg(test)]
mod values;
