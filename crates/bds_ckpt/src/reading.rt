//! Reading a file, field by field.
pub mod frames;
pub mod images;
pub mod threads;
pub mod values;
