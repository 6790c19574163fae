//! The methods of texts, lists and maps, and the changes of lists and maps.
#![tactic(auto)]

mod calls;
mod changes;
mod faults;
mod joins;
mod lists;
mod maps;
mod numbers;
mod paths;
mod places;
mod rows;
mod searching;
mod texts;

pub use calls::call;
pub use changes::change;
pub use faults::LibFault;
pub use rows::rows_are_named;
