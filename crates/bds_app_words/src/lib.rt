//! The words of a call, read by `clap`.
#![tactic(auto)]

mod command;
mod declaration;
mod laws;
mod matched;
mod words;

pub use command::{Command, Over, WordsFault};
pub use laws::{a_path_alone_is_run, accepted_words_ask_for_something};
pub use words::read_words;

#[cfg(test)]
mod tests;
