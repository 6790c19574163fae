//! What a job comes to.

/// What a job comes to.
#[derive(Clone, Copy, PartialEq, Eq)]
pub enum Ending {
    /// The run is done with this status.
    Done(u8),
    /// All ticks are used.
    Spent,
    /// A reply was a fault, and this was told.
    DeviceFault,
    /// It wasn't run, and this was told.
    Refused,
}
