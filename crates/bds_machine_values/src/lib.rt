//! The rows of the machine that go on with the next place: what they do to operands, slots and globals.
#![tactic(auto)]

mod changes;
mod faults;
mod frequent;
mod literals;
mod methods;
mod operands;
mod operators;
mod parts;
mod route;
mod rows;
mod updates;
mod values;
mod variables;

pub use faults::{RowFault, fault_of};
pub use frequent::{difference, load, load_global, opposite, store, store_global, sum};
pub use methods::{result_of, takes};
pub use operands::{take_all, take_bool, take_int, take_text, take_texts};
pub use rows::{change, work};
pub use values::{entry_at, operated, part};
