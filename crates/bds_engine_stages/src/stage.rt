//! Where a run stands between its steps.
use bds_host::Fault;

/// Why the run stops before its threads have ended.
#[derive(Drop)]
pub enum Cause {
    Exited(u8),
    Failed(Fault),
    /// A wait that failed: the task and its code.
    TaskFailed(u32, u8),
}

/// Where a run stands between its steps.
#[derive(Drop)]
pub enum Stage {
    Point,
    /// The turn of a thread.
    Turn(u32),
    Stopping(Cause),
    /// The message of a task that failed is told, and the state is saved next.
    Saving,
    /// A reply was a fault, which is told next; and it has been told.
    Faulted,
    Told,
    Done(u8),
}
