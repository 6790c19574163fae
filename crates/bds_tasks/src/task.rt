//! A task, its state, and what is told of it.
use bds_value::{ByteText, Listed, NoMemory, Numbers, Texts};

/// A task that is to be made: the thread that makes it, its command and name, the files that it
/// makes and needs, the processors that it takes, whether it may fail, and how often it is tried
/// again.
#[derive(Debug, Drop)]
pub struct TaskNew {
    pub maker: u32,
    pub command: ByteText,
    pub name: ByteText,
    pub outs: Texts,
    pub ins: Texts,
    pub cpus: u32,
    pub can_fail: bool,
    pub retry: u32,
}

/// How far a task is.
#[derive(Clone, Copy, Debug, PartialEq, Eq)]
pub enum TaskState {
    Waits,
    Runs,
    /// The code of its command.
    Ended(u8),
    /// The task whose bad end cancelled it.
    Cancelled(u32),
}

/// A task with the tasks that it needs, and the number of its attempt, from 0.
#[derive(Debug, Drop)]
pub struct Task {
    pub made: TaskNew,
    pub needs: Numbers,
    pub attempt: u32,
    pub state: TaskState,
}

/// A list of tasks.
pub type Tasks = Listed<Task>;

/// What an end of a command means.
#[derive(Clone, Copy, Debug, PartialEq, Eq)]
pub enum TaskEnd {
    /// The task waits for its next attempt.
    Again,
    Well,
    Failed(u8),
}

/// Whether a wait on tasks is over.
#[derive(Clone, Copy, Debug, PartialEq, Eq)]
pub enum Waited {
    Not,
    Well,
    /// A task with a bad end, and the code of its command.
    Failed(u32, u8),
}

/// Why a task isn't added. `TooMany` has the number of tasks.
#[derive(Debug, Drop)]
pub enum AddFault {
    TooMany(u32),
    NoMemory,
}

impl From<NoMemory> for AddFault {
    ghost use Rattle.std.specs.Prelude.{◌≡◌};
    ghost use Rattle.bds_tasks.specs.declared.task.AddFault.{AddFault};

    ghost from_gives = { λ _ fault. fault ≡ AddFault.NoMemory };

    fn from(_: NoMemory) -> Self {
        AddFault::NoMemory
    }
}
