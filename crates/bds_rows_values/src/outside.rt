//! Worked rows of what the outside replies.
use bds_host::{Ask, Auto, Host, Reply, Scripted, fits};
use bds_value::{ByteText, Listed, NoMemory, Numbers};
use std::alloc::Global;
use std::test::Fail;

/// An ask by its word; its texts are one letter or none, and its task is task 1.
#[derive(Clone, Copy)]
enum Asked {
    Read,
    Stamp,
    Write,
    Remove,
    Out,
    Err,
    Sys,
    Start,
    /// Threads 2 and 5 are ready, and task 1 is running.
    Next,
    /// Tasks 7 and 3 are running.
    NextEnd,
    NextOfNone,
    Save,
}

/// A reply by its word and its numbers; its text is one letter.
#[derive(Clone, Copy, PartialEq, Eq)]
enum Said {
    Bytes,
    Missing,
    Stamp(bool, u64, i64),
    Done,
    SysDone(u8),
    Started,
    Run(u32),
    Ended(u32, u8),
    Fault,
    NoRoom,
    NoMemory,
}

fn letter(alloc: Global) -> Result<ByteText, NoMemory> {
    Ok(Listed::from_vec(Vec::from_slice(alloc, b"f")?))
}

fn numbers(alloc: Global, items: &[u32]) -> Result<Numbers, NoMemory> {
    Ok(Listed::from_vec(Vec::from_slice(alloc, items)?))
}

fn start(cmd: ByteText) -> Ask {
    Ask::Start {
        task: 1,
        attempt: 0,
        cmd,
    }
}

/// An ask of one text.
fn ask_of_text(asked: Asked, text: ByteText) -> Ask {
    match asked {
        Asked::Stamp => Ask::Stamp(text),
        Asked::Remove => Ask::Remove(text),
        Asked::Out => Ask::Out(text),
        Asked::Err => Ask::Err(text),
        Asked::Sys => Ask::Sys(text),
        Asked::Start => start(text),
        _ => Ask::Read(text),
    }
}

/// An ask of two lists of numbers.
fn ask_of_numbers(ready: Numbers, running: Numbers) -> Ask {
    Ask::Next { ready, running }
}

fn next(alloc: Global, ready: Numbers, running: &[u32]) -> Result<Ask, NoMemory> {
    match numbers(alloc, running) {
        Ok(running) => Ok(ask_of_numbers(ready, running)),
        Err(NoMemory) => Err(NoMemory),
    }
}

fn ask(alloc: Global, asked: Asked) -> Result<Ask, NoMemory> {
    match asked {
        Asked::Write => Ok(Ask::Write {
            path: Listed::new(alloc),
            text: letter(alloc)?,
        }),
        Asked::Save => Ok(Ask::Save {
            path: Listed::new(alloc),
            image: letter(alloc)?,
        }),
        Asked::Next => next(alloc, numbers(alloc, &[2, 5])?, &[1]),
        Asked::NextEnd => next(alloc, Listed::new(alloc), &[7, 3]),
        Asked::NextOfNone => next(alloc, Listed::new(alloc), &[]),
        _ => Ok(ask_of_text(asked, letter(alloc)?)),
    }
}

fn sys_done(code: u8, out: ByteText) -> Reply {
    Reply::SysDone { code, out }
}

/// A reply of no text.
fn plain_reply(said: Said) -> Reply {
    match said {
        Said::Missing => Reply::Missing,
        Said::Stamp(there, size, time) => Reply::Stamp { there, size, time },
        Said::Done => Reply::Done,
        Said::Started => Reply::Started,
        Said::Run(thread) => Reply::Run(thread),
        Said::Ended(task, code) => Reply::Ended { task, code },
        Said::NoRoom => Reply::NoRoom,
        _ => Reply::Fault,
    }
}

fn reply(alloc: Global, said: Said) -> Result<Reply, NoMemory> {
    match said {
        Said::Bytes => Ok(Reply::Bytes(letter(alloc)?)),
        Said::SysDone(code) => Ok(sys_done(code, letter(alloc)?)),
        _ => Ok(plain_reply(said)),
    }
}

/// Whether a reply fits, which ends here.
fn ends_fitting(ask: &Ask, reply: Reply) -> bool {
    fits(ask, &reply)
}

fn fits_ask(alloc: Global, ask: &Ask, said: Said) -> Result<bool, NoMemory> {
    Ok(ends_fitting(ask, reply(alloc, said)?))
}

/// Whether a reply fits an ask, which ends here.
fn ends_asking(alloc: Global, ask: Ask, said: Said) -> Result<bool, NoMemory> {
    fits_ask(alloc, &ask, said)
}

fn reply_fits(alloc: Global, asked: Asked, said: Said) -> Result<bool, NoMemory> {
    ends_asking(alloc, ask(alloc, asked)?, said)
}

/// An ask, a reply that fits it, and one that doesn't.
const FITTING: [(Asked, Said, Said); 14] = [
    (Asked::Read, Said::Bytes, Said::Done),
    (Asked::Read, Said::Missing, Said::Started),
    (Asked::Stamp, Said::Stamp(true, 2, -1), Said::Missing),
    (
        Asked::Stamp,
        Said::Stamp(false, 0, 0),
        Said::Stamp(false, 0, 1),
    ),
    (Asked::Remove, Said::Done, Said::Stamp(false, 0, 0)),
    (Asked::Remove, Said::Missing, Said::Run(0)),
    (Asked::Out, Said::Done, Said::Missing),
    (Asked::Err, Said::Done, Said::Missing),
    (Asked::Write, Said::Done, Said::Missing),
    (Asked::Save, Said::Done, Said::Started),
    (Asked::Sys, Said::SysDone(3), Said::Done),
    (Asked::Start, Said::Started, Said::Done),
    (Asked::Next, Said::Run(5), Said::Run(1)),
    (Asked::Next, Said::Ended(1, 9), Said::Ended(2, 9)),
];

#[test]
fn replies_fit(rt: HostRuntime) -> Result<(), Fail> {
    let alloc = rt.alloc();
    for (asked, good, bad) in &FITTING {
        assert!(rt; reply_fits(alloc, *asked, *good)?);
        assert!(rt; !reply_fits(alloc, *asked, *bad)?);
        assert!(rt; reply_fits(alloc, *asked, Said::Fault)?);
        assert!(rt; reply_fits(alloc, *asked, Said::NoRoom)?);
    }
    Ok(())
}

/// What was said, by its word and its numbers.
fn told(reply: Result<Reply, NoMemory>) -> Said {
    match reply {
        Ok(Reply::Bytes(_)) => Said::Bytes,
        Ok(Reply::Missing) => Said::Missing,
        Ok(Reply::Stamp { there, size, time }) => Said::Stamp(there, size, time),
        Ok(Reply::Done) => Said::Done,
        Ok(Reply::SysDone { code, .. }) => Said::SysDone(code),
        Ok(Reply::Started) => Said::Started,
        Ok(Reply::Run(thread)) => Said::Run(thread),
        Ok(Reply::Ended { task, code }) => Said::Ended(task, code),
        Ok(Reply::Fault) => Said::Fault,
        Ok(Reply::NoRoom) => Said::NoRoom,
        Err(NoMemory) => Said::NoMemory,
    }
}

fn answer(alloc: Global, host: &mut impl Host, asked: Asked) -> Result<Said, NoMemory> {
    Ok(told(host.ask(alloc, ask(alloc, asked)?)))
}

/// Whether a host answers so, in this order, and keeps each pair.
fn answers(alloc: Global, host: &mut impl Host, rows: &[(Asked, Said)]) -> Result<bool, NoMemory> {
    for (asked, said) in rows {
        if answer(alloc, host, *asked)? != *said {
            return Ok(false);
        }
    }
    Ok(host.trace().as_slice().len() == rows.len())
}

// Behind its replies, a host answers Fault to all.
const GIVEN: [(Asked, Said); 3] = [
    (Asked::Out, Said::Done),
    (Asked::Out, Said::Fault),
    (Asked::Out, Said::Fault),
];

#[test]
fn replies_come_in_order(rt: HostRuntime) -> Result<(), Fail> {
    let alloc = rt.alloc();
    let replies = vec![in alloc; Reply::Done, Reply::Missing]?;
    let mut host = Scripted::new(alloc, Listed::from_vec(replies));
    assert!(rt; answers(alloc, &mut host, &GIVEN)?);
    Ok(())
}

// A thread goes on before an end is given, and without either nothing can come.
const MADE: [(Asked, Said); 4] = [
    (Asked::Out, Said::Done),
    (Asked::Next, Said::Run(2)),
    (Asked::NextEnd, Said::Ended(3, 0)),
    (Asked::NextOfNone, Said::Fault),
];

#[test]
fn replies_are_made(rt: HostRuntime) -> Result<(), Fail> {
    let alloc = rt.alloc();
    let mut host = Auto::new(alloc);
    assert!(rt; answers(alloc, &mut host, &MADE)?);
    Ok(())
}

/// How many replies of a host were faults.
fn faults(host: &impl Host) -> usize {
    let mut count: usize = 0;
    for (_, reply) in host.trace().as_slice() {
        if matches!(reply, Reply::Fault) {
            count = count.wrapping_add(1);
        }
    }
    count
}

#[test]
fn a_missing_reply_is_counted_as_a_fault(rt: HostRuntime) -> Result<(), Fail> {
    let alloc = rt.alloc();
    let mut given = Scripted::new(alloc, Listed::new(alloc));
    assert!(rt; answers(alloc, &mut given, &[(Asked::Out, Said::Fault)])?);
    assert_eq!(rt; faults(&given), 1);
    let mut made = Auto::new(alloc);
    assert!(rt; answers(alloc, &mut made, &[(Asked::Out, Said::Done)])?);
    assert_eq!(rt; faults(&made), 0);
    Ok(())
}
