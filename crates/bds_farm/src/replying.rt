//! The reply to an ask, by what is asked inside.
ghost use Rattle.std.specs.Prelude.{◌≡◌, [], List, ℕ};
ghost use Rattle.bds_host.specs.declared.asks.Ask.TheVariants.{Next};
ghost use Rattle.bds_farm.specs.Farm.{IsOther};
ghost use Rattle.bds_farm.specs.Inside.{Inside, queue_of};

use crate::known::Known;
use crate::polling::poll_on;
use crate::starting::start_task;
use bds_around::{copy_ask, turn};
use bds_host::{Ask, Host, Reply};
use bds_value::{ByteText, NoMemory};
use std::alloc::Global;

/// An ask that is handed on.
fn pass<H: Host>(alloc: Global, inner: &mut H, ask: &Ask, known: &Known) -> Result<Reply, NoMemory>
    requires { IsOther ask.now }
    ensures { (submit poll : List ℕ) → Inside submit poll ask.now (queue_of known.now) (queue_of known.now)
        (H.log inner.old) (H.log inner.new) result }
{
    match copy_ask(alloc, ask) {
        Ok(copied) => inner.ask(alloc, copied),
        Err(NoMemory) => Err(NoMemory),
    }
}

/// An end, where no thread is ready.
fn next_end<H: Host>(
    alloc: Global,
    inner: &mut H,
    poll: &ByteText,
    known: &mut Known,
    running: &[u32],
) -> Result<Reply, NoMemory>
    ensures { (submit : List ℕ) → Inside submit poll.now (Next [] running.now) (queue_of known.old) (queue_of known.new)
        (H.log inner.old) (H.log inner.new) result }
{
    match running {
        [] => Ok(Reply::Fault),
        [_, ..] => poll_on(alloc, inner, poll, known, running),
    }
}

/// The thread whose turn it is, or an end.
fn next<H: Host>(
    alloc: Global,
    inner: &mut H,
    poll: &ByteText,
    known: &mut Known,
    ready: &[u32],
    running: &[u32],
) -> Result<Reply, NoMemory>
    ensures { (submit : List ℕ) →
        Inside submit poll.now (Next ready.now running.now) (queue_of known.old) (queue_of known.new)
        (H.log inner.old) (H.log inner.new) result }
{
    match turn(ready, known.last) {
        Some(thread) => {
            known.last = Some(thread);
            Ok(Reply::Run(thread))
        }
        None => next_end(alloc, inner, poll, known, running),
    }
}

/// Replies to an ask.
pub fn reply_farm<H: Host>(
    alloc: Global,
    inner: &mut H,
    submit: &ByteText,
    poll: &ByteText,
    known: &mut Known,
    ask: &Ask,
) -> Result<Reply, NoMemory>
    ensures { Inside submit.now poll.now ask.now (queue_of known.old) (queue_of known.new)
        (H.log inner.old) (H.log inner.new) result }
{
    match ask {
        Ask::Start { task, attempt, cmd } => start_task(
            alloc, inner, submit, known, *task, *attempt, cmd,
        ),
        Ask::Next { ready, running } => next(
            alloc,
            inner,
            poll,
            known,
            ready.as_slice(),
            running.as_slice(),
        ),
        Ask::Read(_) => pass(alloc, inner, ask, known),
        Ask::Stamp(_) => pass(alloc, inner, ask, known),
        Ask::Write { .. } => pass(alloc, inner, ask, known),
        Ask::Remove(_) => pass(alloc, inner, ask, known),
        Ask::Out(_) => pass(alloc, inner, ask, known),
        Ask::Err(_) => pass(alloc, inner, ask, known),
        Ask::Sys(_) => pass(alloc, inner, ask, known),
        Ask::Save { .. } => pass(alloc, inner, ask, known),
    }
}
