//! Writing a file, field by field.
pub mod states;
pub mod threads;
pub mod values;
