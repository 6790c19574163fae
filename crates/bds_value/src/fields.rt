//! The bytes of numbers, texts, types and values, written and read.

pub mod lists;
pub mod numbers;
pub mod reading;
pub mod writing;
