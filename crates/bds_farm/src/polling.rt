//! Asking for ends.
ghost use Rattle.std.specs.Prelude.{◌≡◌, ◌≢◌, [], List, ℕ};
ghost use Rattle.bds_host.specs.declared.asks.Ask.TheVariants.{Next};
ghost use Rattle.bds_farm.specs.Inside.{Inside, LastEnd, LearnsOut, PollStep, PollsOnce, queue_of};

use crate::known::Known;
use crate::learning::{give, learn_text};
use crate::sending::run;
use bds_host::{Host, Reply};
use bds_value::{ByteText, NoMemory, copy_text};
use std::alloc::Global;

/// How often it is asked for an end at most.
pub const MOST_POLLS: u32 = 100_000;

/// Learns what a command has printed, where its code is 0.
fn learn_out(known: &mut Known, code: u8, out: &ByteText) -> Result<bool, NoMemory>
    ensures { LearnsOut code out.now (queue_of known.old) (queue_of known.new) result }
{
    if code == 0 {
        learn_text(&mut known.open_ends, &mut known.ends, out.as_slice())?;
        Ok(true)
    } else {
        Ok(false)
    }
}

fn poll_with<H: Host>(
    alloc: Global,
    inner: &mut H,
    text: ByteText,
    known: &mut Known,
) -> Result<bool, NoMemory>
    ensures { PollsOnce text (queue_of known.old) (queue_of known.new) (H.log inner.old) (H.log inner.new) result }
{
    match run(alloc, inner, text) {
        Ok(Some((code, out))) => learn_out(known, code, &out),
        Ok(None) => Ok(false),
        Err(NoMemory) => Err(NoMemory),
    }
}

/// Asks for ends once, and learns them. False where that fails.
fn poll_once<H: Host>(
    alloc: Global,
    inner: &mut H,
    poll: &ByteText,
    known: &mut Known,
) -> Result<bool, NoMemory>
    ensures { PollsOnce poll.now (queue_of known.old) (queue_of known.new) (H.log inner.old) (H.log inner.new) result }
{
    match copy_text(alloc, poll) {
        Ok(text) => poll_with(alloc, inner, text, known),
        Err(NoMemory) => Err(NoMemory),
    }
}

/// Gives an end of a running task, or asks once, where none is there.
fn poll_step<H: Host>(
    alloc: Global,
    inner: &mut H,
    poll: &ByteText,
    known: &mut Known,
    running: &[u32],
) -> Result<Option<Reply>, NoMemory>
    ensures { PollStep poll.now running.now (queue_of known.old) (queue_of known.new)
        (H.log inner.old) (H.log inner.new) result }
{
    match give(&mut known.ends, running) {
        Some((task, code)) => Ok(Some(Reply::Ended { task, code })),
        None => match poll_once(alloc, inner, poll, known) {
            Ok(true) => Ok(None),
            Ok(false) => Ok(Some(Reply::Fault)),
            Err(NoMemory) => Err(NoMemory),
        },
    }
}

/// The oldest end of a running task, or a fault where none is there.
fn last_end(poll: &ByteText, known: &mut Known, running: &[u32]) -> Reply
    ensures { LastEnd poll.now running.now (queue_of known.old) (queue_of known.new) result }
{
    match give(&mut known.ends, running) {
        Some((task, code)) => Reply::Ended { task, code },
        None => Reply::Fault,
    }
}

/// Asks for ends until one of a running task is learnt, and gives that.
pub fn poll_on<H: Host>(
    alloc: Global,
    inner: &mut H,
    poll: &ByteText,
    known: &mut Known,
    running: &[u32],
) -> Result<Reply, NoMemory>
    requires { running.now ≢ [] }
    ensures { (submit : List ℕ) → Inside submit poll.now (Next [] running.now) (queue_of known.old) (queue_of known.new)
        (H.log inner.old) (H.log inner.new) result }
{
    for _ in 0..MOST_POLLS {
        match poll_step(alloc, inner, poll, known, running) {
            Ok(Some(reply)) => return Ok(reply),
            Ok(None) => {}
            Err(NoMemory) => return Err(NoMemory),
        }
    }
    Ok(last_end(poll, known, running))
}
