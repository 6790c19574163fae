//! Which units may run.
#![tactic(auto)]

mod fields;
mod labels;
mod lists;
mod marks;
mod numbers;
mod places;
mod same;
mod shapes;
mod units;
mod verified;
mod whole;

pub use fields::verified_units_may_be_written;
pub use places::Kind;
pub use units::{VerifyFault, verify};
pub use verified::Verified;
