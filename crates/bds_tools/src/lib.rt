//! Texts for people, and the outside of a run that `make` runs by itself.
#![tactic(auto)]

mod lines;
mod made_host;
mod scripts;
mod states;
mod traces;

pub use made_host::Made;
pub use scripts::make;
pub use states::info;
pub use traces::summary;
