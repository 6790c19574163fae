//! A start is a submission.
ghost use Rattle.std.specs.Prelude.{◌≡◌, List, ℕ};
ghost use Rattle.bds_host.specs.Host.{Answered, Log};
ghost use Rattle.bds_host.specs.declared.asks.Ask.TheVariants.{Start, Write};
ghost use Rattle.bds_host.specs.declared.asks.Reply.TheVariants.{Done};
ghost use Rattle.bds_farm.specs.Farm.{file_of};
ghost use Rattle.bds_farm.specs.Inside.{Enters, Inside, queue_of};

use crate::known::{Known, enter};
use crate::sending::{run_submit, write_file};
use bds_host::{Host, Reply};
use bds_value::{ByteText, NoMemory};
use std::alloc::Global;

/// Enters an attempt, where the code of its submission is 0.
fn entered(known: &mut Known, task: u32, attempt: u32, code: u8) -> Result<Reply, NoMemory>
    ensures { Enters task attempt code (queue_of known.old) (queue_of known.new) result }
{
    if code == 0 {
        enter(known, task, attempt)?;
        Ok(Reply::Started)
    } else {
        Ok(Reply::Fault)
    }
}

/// Submits an attempt whose file is written.
fn submit_task<H: Host>(
    alloc: Global,
    inner: &mut H,
    submit: &ByteText,
    known: &mut Known,
    task: u32,
    attempt: u32,
) -> Result<Reply, NoMemory>
    ensures { (poll cmd : List ℕ) (before : Log) →
        Answered before (H.log inner.old) (Write (file_of task attempt) cmd) Done →
        Inside submit.now poll (Start task attempt cmd) (queue_of known.old) (queue_of known.new)
        before (H.log inner.new) result }
{
    match run_submit(alloc, inner, submit, task, attempt) {
        Ok(Some(code)) => entered(known, task, attempt, code),
        Ok(None) => Ok(Reply::Fault),
        Err(NoMemory) => Err(NoMemory),
    }
}

/// Writes the file of the command of an attempt, and submits it.
pub fn start_task<H: Host>(
    alloc: Global,
    inner: &mut H,
    submit: &ByteText,
    known: &mut Known,
    task: u32,
    attempt: u32,
    cmd: &ByteText,
) -> Result<Reply, NoMemory>
    ensures { (poll : List ℕ) →
        Inside submit.now poll (Start task attempt cmd.now) (queue_of known.old) (queue_of known.new)
        (H.log inner.old) (H.log inner.new) result }
{
    match write_file(alloc, inner, task, attempt, cmd) {
        Ok(true) => submit_task(alloc, inner, submit, known, task, attempt),
        Ok(false) => Ok(Reply::Fault),
        Err(NoMemory) => Err(NoMemory),
    }
}
