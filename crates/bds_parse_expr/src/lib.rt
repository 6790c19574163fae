//! The parser of expressions.
#![tactic(auto)]

mod build;
mod fault;
mod lines;
mod longest;
mod parse;
mod signs;
mod tall;
mod words;

pub use fault::{END, ParseFault};
pub use lines::line_in;
pub use longest::{at_most_one, expr};
pub use parse::{expression, members};
pub use signs::{behind_close, behind_open, line_ahead, name_at};
pub use tall::{Tall, TallExprs};
pub use words::Close;
