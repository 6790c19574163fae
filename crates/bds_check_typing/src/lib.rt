//! Which scripts are well typed, and which node of a walk breaks which rule: definitions, and laws on them.
#![tactic(auto)]

mod given;

pub use given::{Given, Settings};
