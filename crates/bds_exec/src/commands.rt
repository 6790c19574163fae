//! Commands that are run to their end.
ghost use Rattle.std.specs.Prelude.{◌≡◌, IfOk};
ghost use Rattle.std.specs.Str.{IsUtf8};
ghost use Rattle.bds_exec.specs.Serving.{Serves};
ghost use Rattle.bds_exec.specs.System.{Replies};
ghost use Rattle.bds_host.specs.declared.asks.Ask.TheVariants.{Sys as SysAsk};
ghost use Rattle.bds_host.specs.declared.asks.Reply.TheVariants.{Fault};

use crate::files::text_of;
use crate::reader::{ReadCounts, read_all};
use crate::replies::ran;
use crate::system::System;
use bds_host::Reply;
use bds_value::{ByteText, Listed, NoMemory};
use std::alloc::Global;
use std::io;
use std::process::{Command, Processes, Stdio};

/// Starts a shell for a command, and gives its code and its output, or none where that takes too many turns.
pub fn capture<R: Processes>(
    alloc: Global,
    rt: &R,
    command: &str,
) -> io::Result<Option<(Option<i32>, ByteText)>> {
    let mut shell = Command::new(alloc, "sh")?;
    shell.arg("-e")?.arg("-c")?.arg("--")?.arg(command)?;
    shell.stdin(Stdio::null()).stdout(Stdio::piped());
    let mut child = shell.spawn(rt)?;
    let Some(mut stdout) = child.stdout.take() else {
        return Ok(None);
    };
    let mut counts = ReadCounts::new();
    let Some(output) = read_all(alloc, &mut stdout, &mut counts)? else {
        return Ok(None);
    };
    let status = child.wait()?;
    Ok(Some((status.code(), Listed::from_vec(output))))
}

/// Runs a command to its end, with its standard output kept.
#[tactic(auto, using(crate::proofs::Answered::answered))]
pub fn run<S: System>(alloc: Global, system: &S, command: &ByteText) -> Result<Reply, NoMemory>
    ensures served { Serves (SysAsk command.now) result }
    ensures told { IsUtf8 command.now → IfOk result (Replies S.answers (SysAsk command.now)) }
    ensures strange { (IsUtf8 command.now → ⊥) → IfOk result (λ reply. reply ≡ Fault) }
{
    match text_of(command) {
        Some(text) => ran(system.run_command(alloc, text)),
        None => Ok(Reply::Fault),
    }
}
