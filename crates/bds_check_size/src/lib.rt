//! How many instructions the code of a typed script has, as definitions, and what bounds it; and the texts of pieces as they are written.
#![tactic(auto)]

mod laws;
mod piece_texts;
mod sums;
mod task_options;

pub use laws::{expressions_are_small, scripts_are_small, statements_are_small};
pub use piece_texts::{as_written, suffix_text};
pub use sums::{Sum, sum_of};
pub use task_options::{has_condition, has_option};
