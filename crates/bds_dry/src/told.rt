//! What is asked inside for an ask, and what is replied.
ghost use Rattle.std.specs.Prelude.{◌≡◌, [], ℕ, if◌then◌else◌};
ghost use Rattle.bds_host.specs.declared.asks.Ask.TheVariants.{Start, Sys};
ghost use Rattle.bds_host.specs.declared.asks.Reply.TheVariants.{Fault, Started, SysDone};
ghost use Rattle.bds_host.specs.Host.{Log};
ghost use Rattle.bds_dry.specs.Dry.{Dries, IsAlone, IsPassed, IsTold};
ghost use Rattle.bds_dry.specs.Dry.{sys_line as sys_line_of, task_line as task_line_of};

use crate::lines::{sys_line, task_line};
use bds_around::copy_ask;
use bds_host::{Ask, Auto, Host, Reply};
use bds_value::{ByteText, Listed, NoMemory};
use std::alloc::Global;

/// An ask that is handed on.
fn pass<H: Host>(alloc: Global, inner: &mut H, ask: &Ask) -> Result<Reply, NoMemory>
    requires { IsPassed ask.now }
    ensures { Dries ask.now (H.log inner.old) (H.log inner.new) result }
{
    match copy_ask(alloc, ask) {
        Ok(copied) => inner.ask(alloc, copied),
        Err(NoMemory) => Err(NoMemory),
    }
}

/// A line is told, unless there is a fault.
fn tell<H: Host>(alloc: Global, inner: &mut H, line: ByteText) -> Result<bool, NoMemory>
    ensures { IsTold line (H.log inner.old) (H.log inner.new) result }
{
    match inner.ask(alloc, Ask::Out(line))? {
        Reply::Done => Ok(true),
        Reply::Fault => Ok(false),
        _ => unreachable!(),
    }
}

fn tell_start<H: Host>(
    alloc: Global,
    inner: &mut H,
    task: u32,
    cmd: &ByteText,
) -> Result<bool, NoMemory>
    ensures { IsTold (task_line_of task cmd.now) (H.log inner.old) (H.log inner.new) result }
{
    let line = task_line(alloc, task, cmd)?;
    tell(alloc, inner, line)
}

fn tell_sys<H: Host>(alloc: Global, inner: &mut H, cmd: &ByteText) -> Result<bool, NoMemory>
    ensures { IsTold (sys_line_of cmd.now) (H.log inner.old) (H.log inner.new) result }
{
    let line = sys_line(alloc, cmd)?;
    tell(alloc, inner, line)
}

fn started(told: bool) -> Reply
    ensures { result ≡ (if told then Started else Fault) }
{
    if told { Reply::Started } else { Reply::Fault }
}

fn done(alloc: Global, told: bool) -> Reply
    ensures { result ≡ (if told then SysDone 0 [] else Fault) }
{
    if told {
        Reply::SysDone {
            code: 0,
            out: Listed::new(alloc),
        }
    } else {
        Reply::Fault
    }
}

/// A start is told.
fn start<H: Host>(
    alloc: Global,
    inner: &mut H,
    task: u32,
    cmd: &ByteText,
) -> Result<Reply, NoMemory>
    ensures { (attempt : ℕ) → Dries (Start task attempt cmd.now) (H.log inner.old) (H.log inner.new) result }
{
    match tell_start(alloc, inner, task, cmd) {
        Ok(told) => Ok(started(told)),
        Err(NoMemory) => Err(NoMemory),
    }
}

/// A command is told.
fn sys<H: Host>(alloc: Global, inner: &mut H, cmd: &ByteText) -> Result<Reply, NoMemory>
    ensures { Dries (Sys cmd.now) (H.log inner.old) (H.log inner.new) result }
{
    match tell_sys(alloc, inner, cmd) {
        Ok(told) => Ok(done(alloc, told)),
        Err(NoMemory) => Err(NoMemory),
    }
}

/// An ask that is replied without any other.
fn reply_alone(alloc: Global, ask: &Ask) -> Result<Reply, NoMemory>
    requires { IsAlone ask.now }
    ensures { (log : Log) → Dries ask.now log log result }
{
    match copy_ask(alloc, ask) {
        Ok(copied) => {
            let mut auto = Auto::new(alloc);
            auto.ask(alloc, copied)
        }
        Err(NoMemory) => Err(NoMemory),
    }
}

/// Replies to an ask.
pub fn reply_dry<H: Host>(alloc: Global, inner: &mut H, ask: &Ask) -> Result<Reply, NoMemory>
    ensures { Dries ask.now (H.log inner.old) (H.log inner.new) result }
{
    match ask {
        Ask::Read(_) => pass(alloc, inner, ask),
        Ask::Stamp(_) => pass(alloc, inner, ask),
        Ask::Out(_) => pass(alloc, inner, ask),
        Ask::Err(_) => pass(alloc, inner, ask),
        Ask::Start { task, cmd, .. } => start(alloc, inner, *task, cmd),
        Ask::Sys(cmd) => sys(alloc, inner, cmd),
        Ask::Write { .. } => reply_alone(alloc, ask),
        Ask::Remove(_) => reply_alone(alloc, ask),
        Ask::Save { .. } => reply_alone(alloc, ask),
        Ask::Next { .. } => reply_alone(alloc, ask),
    }
}
