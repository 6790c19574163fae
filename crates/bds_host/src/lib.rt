//! The outside: what a host is asked, what it replies, and the messages for people.
#![tactic(auto)]

mod asks;
mod automatic;
mod copies;
mod faults;
mod messages;
mod outside;
mod scripted;
mod traces;

pub use asks::{Ask, Replies, Reply, Trace, fits};
pub use automatic::{Auto, least};
pub use bds_value::RunFault;
pub use copies::{copy_numbers, copy_reply};
pub use faults::Fault;
pub use messages::{message, message_of};
pub use outside::Host;
pub use scripted::Scripted;
pub use traces::{last_ask, record_ask, record_reply};
