//! Ids of tasks and threads, and the status of a thread.
use crate::listed::Listed;

/// The number of a task, from 1, or of a thread, from 0.
#[derive(Clone, Copy, Debug, PartialEq, Eq)]
pub enum Id {
    Task(u32),
    Thread(u32),
}

/// A list of tasks and threads.
pub type Ids = Listed<Id>;

/// Whether a thread goes on, or for what it waits.
#[derive(Debug, Drop)]
pub enum Status {
    Ready,
    Waiting(Ids),
    Ended,
}
