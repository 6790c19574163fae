//! Operands go through the code of expressions.
#![tactic(auto)]

mod laws;

pub use laws::{expressions_run, functions_have_shapes};
