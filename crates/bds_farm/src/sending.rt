//! What is asked of the host around which a farm stands.
ghost use Rattle.std.specs.Prelude.{◌≡◌, ℕ};
ghost use Rattle.bds_farm.specs.Farm.{file_of as file_text, submit_text as submit_text_of};
ghost use Rattle.bds_farm.specs.Inside.{IsCoded, IsRun, IsWritten};

use crate::names::{file_of, submit_text};
use bds_host::{Ask, Host, Reply};
use bds_value::{ByteText, NoMemory, copy_text};
use std::alloc::Global;

fn write<H: Host>(
    alloc: Global,
    inner: &mut H,
    path: ByteText,
    text: ByteText,
) -> Result<bool, NoMemory>
    ensures { (task attempt : ℕ) → path ≡ file_text task attempt
        → IsWritten task attempt text (H.log inner.old) (H.log inner.new) result }
{
    match inner.ask(alloc, Ask::Write { path, text })? {
        Reply::Done => Ok(true),
        Reply::Fault => Ok(false),
        _ => unreachable!(),
    }
}

/// Writes the file of the command of an attempt, unless there is a fault.
pub fn write_file<H: Host>(
    alloc: Global,
    inner: &mut H,
    task: u32,
    attempt: u32,
    cmd: &ByteText,
) -> Result<bool, NoMemory>
    ensures { IsWritten task attempt cmd.now (H.log inner.old) (H.log inner.new) result }
{
    let path = file_of(alloc, task, attempt)?;
    let text = copy_text(alloc, cmd)?;
    write(alloc, inner, path, text)
}

/// Runs a command, which prints something, unless there is a fault.
pub fn run<H: Host>(
    alloc: Global,
    inner: &mut H,
    text: ByteText,
) -> Result<Option<(u8, ByteText)>, NoMemory>
    ensures { IsRun text (H.log inner.old) (H.log inner.new) result }
{
    match inner.ask(alloc, Ask::Sys(text))? {
        Reply::SysDone { code, out } => Ok(Some((code, out))),
        Reply::Fault => Ok(None),
        _ => unreachable!(),
    }
}

fn run_coded<H: Host>(alloc: Global, inner: &mut H, text: ByteText) -> Result<Option<u8>, NoMemory>
    ensures { IsCoded text (H.log inner.old) (H.log inner.new) result }
{
    match inner.ask(alloc, Ask::Sys(text))? {
        Reply::SysDone { code, .. } => Ok(Some(code)),
        Reply::Fault => Ok(None),
        _ => unreachable!(),
    }
}

/// Runs the command that submits an attempt, and gives its code, unless there is a fault.
pub fn run_submit<H: Host>(
    alloc: Global,
    inner: &mut H,
    submit: &ByteText,
    task: u32,
    attempt: u32,
) -> Result<Option<u8>, NoMemory>
    ensures { IsCoded (submit_text_of submit.now task attempt) (H.log inner.old) (H.log inner.new) result }
{
    let text = submit_text(alloc, submit, task, attempt)?;
    run_coded(alloc, inner, text)
}
