//! Why bytes aren't those of a state.
use bds_state::StateFault;
use bds_value::{FieldFault, NoMemory};
use bds_verify::VerifyFault;

/// Why bytes aren't those of a state. A place counts bytes from 0.
#[derive(Debug, Drop)]
pub enum LoadFault {
    /// The bytes end in a field; how many there are.
    Short(u64),
    /// A place, and the byte that stands there: a tag or a truth value that isn't one, or a byte with
    /// which no file begins.
    BadTag(u64, u8),
    /// The place of a count or length, which is above its limit, and the number.
    BadNumber(u64, u64),
    /// The place of a key or number, which doesn't come behind the one before it.
    NotRising(u64),
    /// The place of the first byte behind the last field.
    Extra(u64),
    /// The place of the trailer, which isn't the SHA-256 of the bytes before it.
    BadSum(u64),
    /// The first function of the unit that isn't verified, and the place in it.
    Unverified { function: u32, at: u32 },
    /// A thread, from 0.
    BadThread(u32),
    /// A thread, and a frame of it, the oldest as 0.
    BadFrame(u32, u32),
    /// A task, from 1.
    BadTask(u32),
    /// A rule, from 1.
    BadRule(u32),
    NoMemory,
}
