//! The canonical text of a script.
#![tactic(auto)]

mod before;
mod canonical;
mod fault;
mod first_line;
mod laying;
mod spelling;
mod words;

pub use canonical::canonical_text;
pub use fault::FormatFault;
pub use laying::layout;
