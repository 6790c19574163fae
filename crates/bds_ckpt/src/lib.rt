//! Checkpoint files: the bytes of a state, written and loaded.
#![tactic(auto)]

mod fault;
mod image;
mod laws;
mod loading;
mod reading;
mod version;
mod writing;

pub use fault::LoadFault;
pub use laws::{load_and_write, states_are_read_back, write_and_load};
pub use loading::load;
pub use writing::states::write;
