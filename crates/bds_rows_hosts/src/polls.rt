//! Polls that are long or many.
ghost use Rattle.std.specs.Prelude.{◌≡◌, []};

use crate::rows::{Asked, Said, ask_of, is_reply, reply_of, text};
use bds_farm::{Farm, Farmed};
use bds_host::{Host, Replies, Reply, Scripted};
use bds_value::{ByteText, Listed, MAX_TEXT, NoMemory};
use std::alloc::Global;
use std::marker::Brand;
use std::test::Fail;

fn end_of(reply: Result<Reply, NoMemory>, said: &Said) -> bool {
    match reply {
        Ok(reply) => is_reply(&reply, said),
        Err(NoMemory) => false,
    }
}

fn is_answered(
    alloc: Global,
    host: &mut impl Host,
    asked: &Asked,
    said: &Said,
) -> Result<bool, NoMemory> {
    let ask = ask_of(alloc, asked)?;
    Ok(end_of(host.ask(alloc, ask), said))
}

/// Whether a task is submitted, and its end is answered so.
fn ends_so(alloc: Global, host: &mut impl Host, said: &Said) -> bool {
    let is_started = is_answered(alloc, host, &Asked::Start(1, 0, b"echo hi"), &Said::Started);
    let is_ended = is_answered(alloc, host, &Asked::Next(&[], &[1]), said);
    matches!(is_started, Ok(true)) && matches!(is_ended, Ok(true))
}

fn was_asked<K: Farmed>(farm: Farm<Scripted, K>, count: usize) -> bool {
    farm.into_inner().trace().as_slice().len() == count
}

fn runs<K: Farmed>(
    alloc: Global,
    submit: ByteText,
    poll: ByteText,
    replies: Replies,
    said: &Said,
    count: usize,
) -> bool
    requires start { K.start ≡ [] }
    requires submit { submit ≡ K.submit }
    requires poll { poll ≡ K.poll }
{
    let mut farm: Farm<Scripted, K> = Farm::new(alloc, Scripted::new(alloc, replies), submit, poll);
    let is_told = ends_so(alloc, &mut farm, said);
    was_asked(farm, count) && is_told
}

fn runs_with(
    alloc: Global,
    submit: ByteText,
    poll: ByteText,
    replies: Replies,
    said: &Said,
    count: usize,
) -> bool {
    runs::<Brand>(alloc, submit, poll, replies, said, count)
}

/// Whether the end of a task is answered so, where these are the replies inside, and so many asks are made there.
fn farms(alloc: Global, replies: Replies, said: &Said, count: usize) -> Result<bool, Fail> {
    let submit = text(alloc, b"q")?;
    match text(alloc, b"s") {
        Ok(poll) => Ok(runs_with(alloc, submit, poll, replies, said, count)),
        Err(NoMemory) => Ok(false),
    }
}

/// A submission, and so many answers without an end.
fn no_ends(alloc: Global, count: u32) -> Result<Replies, NoMemory> {
    let mut replies = Listed::new(alloc);
    replies.push(Reply::Done)?;
    replies.push(reply_of(alloc, &Said::SysDone(0, b""))?)?;
    for _ in 0..count {
        replies.push(reply_of(alloc, &Said::SysDone(0, b"task.1.1 0\n"))?)?;
    }
    Ok(replies)
}

/// The same, and then an end.
fn late_end(alloc: Global, count: u32) -> Result<Replies, NoMemory> {
    let mut replies = no_ends(alloc, count)?;
    replies.push(reply_of(alloc, &Said::SysDone(0, b"task.1.0 3\n"))?)?;
    Ok(replies)
}

#[test]
fn the_last_question_may_bring_an_end(rt: HostRuntime) -> Result<(), Fail> {
    let alloc = rt.alloc();
    assert!(rt; farms(alloc, late_end(alloc, 99_999)?, &Said::Ended(1, 3), 100_002)?);
    Ok(())
}

#[test]
fn no_further_question_is_asked(rt: HostRuntime) -> Result<(), Fail> {
    let alloc = rt.alloc();
    assert!(rt; farms(alloc, late_end(alloc, 100_000)?, &Said::Fault, 100_002)?);
    Ok(())
}

const LINE: &[u8] = b"task.1.1 0\ntask.2.0 7\n\n9.9.9.9.\n";

/// As many bytes as a text may have, with an end at their end.
fn long_output(alloc: Global) -> Result<ByteText, NoMemory> {
    let mut out = Vec::new(alloc);
    for _ in 0..MAX_TEXT / 32 - 1 {
        out.extend_from_slice(LINE)?;
    }
    out.extend_from_slice(b"0123456789\n012345678\ntask.1.0 42")?;
    Ok(Listed::from_vec(out))
}

fn sys_done(out: ByteText) -> Reply {
    Reply::SysDone { code: 0, out }
}

fn long_answer(alloc: Global) -> Result<Replies, NoMemory> {
    let mut replies = no_ends(alloc, 0)?;
    let out = long_output(alloc)?;
    replies.push(sys_done(out))?;
    Ok(replies)
}

#[test]
fn an_end_is_found_behind_many_lines(rt: HostRuntime) -> Result<(), Fail> {
    let alloc = rt.alloc();
    assert!(rt; farms(alloc, long_answer(alloc)?, &Said::Ended(1, 42), 3)?);
    Ok(())
}
