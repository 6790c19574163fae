//! The terms of names, of texts and of expressions.
#![tactic(auto)]

mod expressions;
mod texts;

pub use expressions::{expr_term, expr_terms, files_of};
pub use texts::{line_end, plain, scope_of, text_term, variable};
