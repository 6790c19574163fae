//! The unit of a typed script.
#![tactic(auto)]

mod functions;
mod names;
mod top;
mod unit;
mod values;

pub use unit::{GenFault, generate, generate_verified};
