//! The real device: files, streams, commands, and a shell that runs tasks.
#![tactic(auto)]

mod commands;
mod files;
mod fresh;
mod line;
mod local;
mod locks;
mod reader;
mod replies;
mod runner;
mod streams;
mod system;
mod targets;
mod turns;

pub use local::LocalHost;
pub use locks::Locks;
pub use streams::Streams;
pub use system::System;
pub use targets::Target;

#[cfg(test)]
mod tests;
