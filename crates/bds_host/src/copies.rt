//! Copies of replies and of what asks hold, since both are stored and handed out.
ghost use Rattle.std.specs.Prelude.{◌≡◌, IfOk};

use crate::Reply;
use bds_value::{Listed, NoMemory, Numbers, copy_text};
use std::alloc::Global;

/// Equal numbers, in as much room as they take.
pub fn copy_numbers(alloc: Global, numbers: &Numbers) -> Result<Numbers, NoMemory>
    ensures { IfOk result (λ copied. copied ≡ numbers.now) }
{
    let copied = Vec::from_slice(alloc, numbers.as_slice())?;
    Ok(Listed::from_vec(copied))
}

/// An equal reply.
pub fn copy_reply(alloc: Global, reply: &Reply) -> Result<Reply, NoMemory>
    ensures { IfOk result (λ copied. copied ≡ reply.now) }
{
    Ok(match reply {
        Reply::Bytes(bytes) => Reply::Bytes(copy_text(alloc, bytes)?),
        Reply::Missing => Reply::Missing,
        Reply::Stamp { there, size, time } => Reply::Stamp {
            there: *there,
            size: *size,
            time: *time,
        },
        Reply::Done => Reply::Done,
        Reply::SysDone { code, out } => Reply::SysDone {
            code: *code,
            out: copy_text(alloc, out)?,
        },
        Reply::Started => Reply::Started,
        Reply::Run(thread) => Reply::Run(*thread),
        Reply::Ended { task, code } => Reply::Ended {
            task: *task,
            code: *code,
        },
        Reply::Fault => Reply::Fault,
        Reply::NoRoom => Reply::NoRoom,
    })
}
