//! The checker: which scripts are accepted, and the types of their expressions.
#![tactic(auto)]

mod checking;
mod functions;
mod globals;
mod includes;
mod program;
mod top_level;
mod words;

pub use bds_check_rules::{CheckFault, Rule};
pub use bds_check_typing::{Given, Settings};
pub use bds_check_words::WordsFault;
pub use checking::{Typed, TypedScript, check};
pub use globals::first_names;
pub use includes::holds_include;
pub use words::with_words;
