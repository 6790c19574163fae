//! The stages of a run outside a thread's turn: at a point, while it stops, and what takes a thread out and puts it back.
#![tactic(auto)]

mod faults;
mod points;
mod stage;
mod stop;
mod stopped;
mod threads;

pub use faults::fails;
pub use points::at_point;
pub use stage::{Cause, Stage};
pub use stop::Halt;
pub use stopped::{checkpoint_path, save, saving, stopping, tell_device};
pub use threads::{answer, put, take, wait, wake};
