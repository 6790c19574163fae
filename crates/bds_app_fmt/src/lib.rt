//! The command that formats a script, over any host.
#![tactic(auto)]

mod formatting;
mod laws;

pub use formatting::format_script;
pub use laws::{canonical_text_is_printed, canonical_text_is_printed_again};
