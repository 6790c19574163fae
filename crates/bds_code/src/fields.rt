//! The fields of units in files.
pub(crate) mod code;
pub(crate) mod reading;
pub(crate) mod units;
pub(crate) mod writing;
