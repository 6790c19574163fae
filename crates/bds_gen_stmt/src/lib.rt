//! The code of statements, functions and units, as definitions, and what is shown of it.
#![tactic(auto)]

mod laws;

pub use laws::{units_are_small, units_are_verified, units_have_their_size};
