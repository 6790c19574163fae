//! Asks made of a few bytes, and replies told in a few.
use bds_host::{Ask, Host, Reply};
use bds_value::{ByteText, Listed, NoMemory, Numbers};
use std::alloc::Global;

/// What a reply tells where something was done, or begun.
pub const DONE: &[u8] = b"done";

pub const FAULT: &[u8] = b"fault";

#[derive(Clone, Copy)]
pub enum AskKind {
    Read,
    Stamp,
    Write,
    Remove,
    Out,
    Err,
    Sys,
    Save,
}

fn bytes(alloc: Global, bytes: &[u8]) -> Result<ByteText, NoMemory> {
    Ok(Listed::from_vec(Vec::from_slice(alloc, bytes)?))
}

pub fn numbers(alloc: Global, items: &[u32]) -> Result<Numbers, NoMemory> {
    Ok(Listed::from_vec(Vec::from_slice(alloc, items)?))
}

/// An ask of a path or text, and of the bytes that are written there.
fn ask_of(alloc: Global, kind: AskKind, name: &[u8], more: &[u8]) -> Result<Ask, NoMemory> {
    let name = bytes(alloc, name)?;
    Ok(match kind {
        AskKind::Read => Ask::Read(name),
        AskKind::Stamp => Ask::Stamp(name),
        AskKind::Write => Ask::Write {
            path: name,
            text: bytes(alloc, more)?,
        },
        AskKind::Remove => Ask::Remove(name),
        AskKind::Out => Ask::Out(name),
        AskKind::Err => Ask::Err(name),
        AskKind::Sys => Ask::Sys(name),
        AskKind::Save => Ask::Save {
            path: name,
            image: bytes(alloc, more)?,
        },
    })
}

/// A code or a size, and bytes behind it.
fn numbered(alloc: Global, number: u64, more: &[u8]) -> Result<Vec<u8>, NoMemory> {
    let mut told = Vec::new(alloc);
    told.extend_from_slice(format!(in alloc; "{number} ")?.as_bytes())?;
    told.extend_from_slice(more)?;
    Ok(told)
}

/// What a reply tells: the bytes of a file, the code and the output of a command, the size of a file and a time near 1970.
fn tell(alloc: Global, reply: &Reply) -> Result<Vec<u8>, NoMemory> {
    Ok(match reply {
        Reply::Bytes(bytes) => Vec::from_slice(alloc, bytes.as_slice())?,
        Reply::SysDone { code, out } => numbered(alloc, u64::from(*code), out.as_slice())?,
        Reply::Stamp { there, size, time } if *there && *time < 9_000_000_000 => {
            numbered(alloc, *size, format!(in alloc; "{time}")?.as_bytes())?
        }
        Reply::Stamp { there, size, .. } if *there => numbered(alloc, *size, b"")?,
        Reply::Ended { task, code } => {
            numbered(
                alloc,
                u64::from(*task),
                format!(in alloc; "{code}")?.as_bytes(),
            )?
        }
        Reply::Missing | Reply::Stamp { .. } => Vec::from_slice(alloc, b"missing")?,
        Reply::Done | Reply::Started => Vec::from_slice(alloc, DONE)?,
        Reply::Run(thread) => numbered(alloc, u64::from(*thread), b"goes on")?,
        Reply::Fault => Vec::from_slice(alloc, FAULT)?,
        Reply::NoRoom => Vec::from_slice(alloc, b"no room")?,
    })
}

/// What the reply to an ask tells.
pub fn told<H: Host>(
    alloc: Global,
    host: &mut H,
    kind: AskKind,
    name: &[u8],
    more: &[u8],
) -> Result<Vec<u8>, NoMemory> {
    let ask = ask_of(alloc, kind, name, more)?;
    let reply = host.ask(alloc, ask)?;
    tell(alloc, &reply)
}

/// What the reply to the start of a task tells.
pub fn start<H: Host>(
    alloc: Global,
    host: &mut H,
    task: u32,
    command: &[u8],
) -> Result<Vec<u8>, NoMemory> {
    let ask = Ask::Start {
        task,
        attempt: 0,
        cmd: bytes(alloc, command)?,
    };
    let reply = host.ask(alloc, ask)?;
    tell(alloc, &reply)
}

/// What the reply to a `Next` tells.
pub fn next<H: Host>(
    alloc: Global,
    host: &mut H,
    ready: &[u32],
    running: &[u32],
) -> Result<Vec<u8>, NoMemory> {
    let ask = Ask::Next {
        ready: numbers(alloc, ready)?,
        running: numbers(alloc, running)?,
    };
    let reply = host.ask(alloc, ask)?;
    tell(alloc, &reply)
}
