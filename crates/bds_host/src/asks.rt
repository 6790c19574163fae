//! What a host is asked, what it replies, and which replies fit an ask.
ghost use Rattle.std.specs.Prelude.{◌≡◌};
ghost use Rattle.bds_host.specs.Asks.{fits as fits_of};

use bds_value::{ByteText, Listed, Numbers};

/// One contact with the outside.
#[derive(Debug, Drop)]
pub enum Ask {
    /// The bytes of the file at a path.
    Read(ByteText),
    /// Whether a file is there, its size in bytes and its time.
    Stamp(ByteText),
    Write {
        path: ByteText,
        text: ByteText,
    },
    Remove(ByteText),
    /// Bytes for standard output.
    Out(ByteText),
    /// Bytes for standard error.
    Err(ByteText),
    /// A command that is run to its end.
    Sys(ByteText),
    /// A command that is run in the background as an attempt of a task.
    Start {
        task: u32,
        attempt: u32,
        cmd: ByteText,
    },
    /// Which ready thread goes on, or which running task has ended.
    Next {
        ready: Numbers,
        running: Numbers,
    },
    /// A checkpoint to be kept at a path.
    Save {
        path: ByteText,
        image: ByteText,
    },
}

/// What the outside replied.
#[derive(Debug, Drop)]
pub enum Reply {
    Bytes(ByteText),
    /// There is no such file.
    Missing,
    /// The time is in nanoseconds since 1970, negative before.
    Stamp { there: bool, size: u64, time: i64 },
    Done,
    SysDone { code: u8, out: ByteText },
    Started,
    /// The thread that goes on.
    Run(u32),
    Ended { task: u32, code: u8 },
    /// The device failed.
    Fault,
    /// There was no memory for the reply.
    NoRoom,
}

/// What was asked and replied, in order.
pub type Trace = Listed<(Ask, Reply)>;

/// Replies, in order.
pub type Replies = Listed<Reply>;

/// Whether a reply fits an ask. `Fault` and `NoRoom` fit each.
pub fn fits(ask: &Ask, reply: &Reply) -> bool
    ensures { result ≡ fits_of ask.now reply.now }
{
    match (ask, reply) {
        (_, Reply::Fault | Reply::NoRoom) => true,
        (Ask::Read(_), Reply::Bytes(_) | Reply::Missing) => true,
        (Ask::Stamp(_), Reply::Stamp { there, size, time }) => {
            *there || *size == 0 && *time == 0
        }
        (Ask::Remove(_), Reply::Done | Reply::Missing) => true,
        (Ask::Write { .. } | Ask::Out(_) | Ask::Err(_) | Ask::Save { .. }, Reply::Done) => true,
        (Ask::Sys(_), Reply::SysDone { .. }) => true,
        (Ask::Start { .. }, Reply::Started) => true,
        (Ask::Next { ready, .. }, Reply::Run(thread)) => ready.as_slice().contains(thread),
        (Ask::Next { running, .. }, Reply::Ended { task, .. }) => running.as_slice().contains(task),
        _ => false,
    }
}
