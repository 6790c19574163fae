//! What the words behind a script set in it.
#![tactic(auto)]

mod faults;
mod kinds;
mod laws;
mod names;
mod reading;
mod values;

pub use faults::WordsFault;
pub use kinds::Kind;
pub use laws::given_values_fit;
pub use reading::{Preset, read_settings};
