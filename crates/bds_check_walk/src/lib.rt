//! The walk of the checker through expressions: their types, and the first node that breaks a rule.
#![tactic(auto)]

mod arguments;
mod closing;
mod list_literals;
mod map_literals;
mod openness;
mod walking;

pub use arguments::walk_call;
pub use walking::walk;
