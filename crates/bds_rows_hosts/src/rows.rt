//! Asks and replies as rows name them, and hosts that are asked so.
use bds_host::{Ask, Host, Replies, Reply, Trace};
use bds_value::{ByteText, Listed, NoMemory, Numbers};
use std::alloc::Global;

/// An ask, with its texts and numbers.
#[derive(Clone, Copy)]
pub enum Asked {
    Read(&'static [u8]),
    Stamp(&'static [u8]),
    Write(&'static [u8], &'static [u8]),
    Remove(&'static [u8]),
    Out(&'static [u8]),
    Err(&'static [u8]),
    Sys(&'static [u8]),
    /// Task, attempt, command.
    Start(u32, u32, &'static [u8]),
    /// Ready threads, running tasks.
    Next(&'static [u32], &'static [u32]),
    Save(&'static [u8], &'static [u8]),
}

/// A reply, with its text and numbers. `NoRoom` as an answer is want of memory.
#[derive(Clone, Copy)]
pub enum Said {
    Bytes(&'static [u8]),
    Missing,
    Stamp(bool, u64, i64),
    Done,
    SysDone(u8, &'static [u8]),
    Started,
    Run(u32),
    Ended(u32, u8),
    Fault,
    NoRoom,
}

/// What is asked, and the reply.
pub type Row = (Asked, Said);

pub fn text(alloc: Global, bytes: &[u8]) -> Result<ByteText, NoMemory> {
    Ok(Listed::from_vec(Vec::from_slice(alloc, bytes)?))
}

fn numbers(alloc: Global, items: &[u32]) -> Result<Numbers, NoMemory> {
    Ok(Listed::from_vec(Vec::from_slice(alloc, items)?))
}

/// An ask as a row names it.
pub fn ask_of(alloc: Global, asked: &Asked) -> Result<Ask, NoMemory> {
    Ok(match asked {
        Asked::Read(path) => Ask::Read(text(alloc, path)?),
        Asked::Stamp(path) => Ask::Stamp(text(alloc, path)?),
        Asked::Write(path, body) => Ask::Write {
            path: text(alloc, path)?,
            text: text(alloc, body)?,
        },
        Asked::Remove(path) => Ask::Remove(text(alloc, path)?),
        Asked::Out(body) => Ask::Out(text(alloc, body)?),
        Asked::Err(body) => Ask::Err(text(alloc, body)?),
        Asked::Sys(cmd) => Ask::Sys(text(alloc, cmd)?),
        Asked::Start(task, attempt, cmd) => Ask::Start {
            task: *task,
            attempt: *attempt,
            cmd: text(alloc, cmd)?,
        },
        Asked::Next(ready, running) => Ask::Next {
            ready: numbers(alloc, ready)?,
            running: numbers(alloc, running)?,
        },
        Asked::Save(path, image) => Ask::Save {
            path: text(alloc, path)?,
            image: text(alloc, image)?,
        },
    })
}

/// A reply as a row names it.
pub fn reply_of(alloc: Global, said: &Said) -> Result<Reply, NoMemory> {
    Ok(match said {
        Said::Bytes(bytes) => Reply::Bytes(text(alloc, bytes)?),
        Said::Missing => Reply::Missing,
        Said::Stamp(there, size, time) => Reply::Stamp {
            there: *there,
            size: *size,
            time: *time,
        },
        Said::Done => Reply::Done,
        Said::SysDone(code, out) => Reply::SysDone {
            code: *code,
            out: text(alloc, out)?,
        },
        Said::Started => Reply::Started,
        Said::Run(thread) => Reply::Run(*thread),
        Said::Ended(task, code) => Reply::Ended {
            task: *task,
            code: *code,
        },
        Said::Fault => Reply::Fault,
        Said::NoRoom => Reply::NoRoom,
    })
}

fn is_ask(ask: &Ask, asked: &Asked) -> bool {
    match (ask, asked) {
        (Ask::Read(a), Asked::Read(b)) => a.as_slice() == *b,
        (Ask::Stamp(a), Asked::Stamp(b)) => a.as_slice() == *b,
        (Ask::Write { path, text }, Asked::Write(b, c)) => path.as_slice() == *b
            && text.as_slice() == *c,
        (Ask::Remove(a), Asked::Remove(b)) => a.as_slice() == *b,
        (Ask::Out(a), Asked::Out(b)) => a.as_slice() == *b,
        (Ask::Err(a), Asked::Err(b)) => a.as_slice() == *b,
        (Ask::Sys(a), Asked::Sys(b)) => a.as_slice() == *b,
        (Ask::Start { task, attempt, cmd }, Asked::Start(n, k, b)) => *task == *n
            && *attempt == *k
            && cmd.as_slice() == *b,
        (Ask::Next { ready, running }, Asked::Next(b, c)) => ready.as_slice() == *b
            && running.as_slice() == *c,
        (Ask::Save { path, image }, Asked::Save(b, c)) => path.as_slice() == *b
            && image.as_slice() == *c,
        _ => false,
    }
}

pub fn is_reply(reply: &Reply, said: &Said) -> bool {
    match (reply, said) {
        (Reply::Bytes(a), Said::Bytes(b)) => a.as_slice() == *b,
        (Reply::Missing, Said::Missing) => true,
        (Reply::Stamp { there, size, time }, Said::Stamp(a, b, c)) => *there == *a
            && *size == *b
            && *time == *c,
        (Reply::Done, Said::Done) => true,
        (Reply::SysDone { code, out }, Said::SysDone(n, b)) => *code == *n && out.as_slice() == *b,
        (Reply::Started, Said::Started) => true,
        (Reply::Run(thread), Said::Run(k)) => *thread == *k,
        (Reply::Ended { task, code }, Said::Ended(n, c)) => *task == *n && *code == *c,
        (Reply::Fault, Said::Fault) => true,
        (Reply::NoRoom, Said::NoRoom) => true,
        _ => false,
    }
}

/// The replies of rows.
pub fn replies_of(alloc: Global, rows: &[Row]) -> Result<Replies, NoMemory> {
    let mut replies = Listed::new(alloc);
    for row in rows {
        replies.push(reply_of(alloc, &row.1)?)?;
    }
    Ok(replies)
}

/// Whether a log holds these pairs.
pub fn is_log(trace: &Trace, rows: &[Row]) -> bool {
    let pairs = trace.as_slice();
    if pairs.len() != rows.len() {
        return false;
    }
    for i in 0..rows.len() {
        if !is_ask(&pairs[i].0, &rows[i].0) || !is_reply(&pairs[i].1, &rows[i].1) {
            return false;
        }
    }
    true
}

/// Whether replies are those of rows.
pub fn are_replies(replies: &[Reply], rows: &[Row]) -> bool {
    if replies.len() != rows.len() {
        return false;
    }
    for i in 0..rows.len() {
        if !is_reply(&replies[i], &rows[i].1) {
            return false;
        }
    }
    true
}

/// Whether an answer is what a row says; it ends here.
fn is_answer(answer: Result<Reply, NoMemory>, said: &Said) -> bool {
    match answer {
        Ok(reply) => is_reply(&reply, said),
        Err(NoMemory) => matches!(said, Said::NoRoom),
    }
}

fn answers_so(alloc: Global, host: &mut impl Host, row: &Row) -> Result<bool, NoMemory> {
    let ask = ask_of(alloc, &row.0)?;
    Ok(is_answer(host.ask(alloc, ask), &row.1))
}

/// Whether a host answers so, in this order, and its log then holds these pairs.
pub fn answers(alloc: Global, host: &mut impl Host, rows: &[Row]) -> bool {
    for row in rows {
        match answers_so(alloc, host, row) {
            Ok(true) => {}
            _ => return false,
        }
    }
    is_log(host.trace(), rows)
}
