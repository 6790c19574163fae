//! What is in memory has its bits, which a walk tells of each number. So what a log needs beside is its limits, and
//! that no reply was lost or is a fault.
ghost use Rattle.std.specs.List.{All};
ghost use Rattle.bds_replay.specs.Log.{IsFieldJob, IsFieldLog, IsGiven, ReplyFits};

use crate::log::Log;
use bds_host::Reply;

fn reply_fits(reply: &Reply)
    ensures { ReplyFits reply.now }
{
    match reply {
        Reply::Bytes(text) => {
            let _length = text.len();
        }
        Reply::Missing => {}
        Reply::Stamp { size, time, .. } => {
            let _size = *size;
            let _time = *time;
        }
        Reply::Done => {}
        Reply::SysDone { code, out } => {
            let _code = *code;
            let _length = out.len();
        }
        Reply::Started => {}
        Reply::Run(thread) => {
            let _thread = *thread;
        }
        Reply::Ended { task, code } => {
            let _task = *task;
            let _code = *code;
        }
        Reply::Fault => {}
        Reply::NoRoom => {}
    }
}

fn all_fit(replies: &[Reply])
    ensures { All ReplyFits replies.now }
{
    for reply in replies {
        reply_fits(reply);
    }
}

/// A log in memory is one that has bytes: a law, which walks the replies.
pub fn has_bytes(log: &Log)
    requires job { IsFieldJob log.now.job }
    requires given { All IsGiven log.now.replies }
    ensures { IsFieldLog log.now }
{
    let _path = log.job.path.len();
    let _count = log.replies.len();
    all_fit(log.replies.as_slice());
}
