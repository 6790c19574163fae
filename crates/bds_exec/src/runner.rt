//! A shell that runs tasks in the background, and tells their ends, each on one line.
ghost use Rattle.std.specs.Prelude.{◌≡◌, ◌≢◌, ◌<◌, ◌^◌, ◌++◌, ◌∷◌, ℕ, List, ◌⊎◌, Some, IfErr, IfOk, MatchOption, decimal};
ghost use Rattle.std.specs.IoError.{error_kind};
ghost use Rattle.std.specs.declared.io.ErrorKind.{ErrorKind};
ghost use Rattle.bds_exec.specs.FirstLine.{GivesLine};
ghost use Rattle.bds_exec.specs.Replies.{IsEnd, IsNextEnd, IsNoLine, line_of};
ghost use Rattle.bds_exec.specs.Serving.{IsServedBy, Serves};
ghost use Rattle.bds_exec.specs.System.{Replies};
ghost use Rattle.bds_exec.specs.Untold.{untold};
ghost use Rattle.bds_host.specs.declared.asks.Ask.TheVariants.{Next as NextAsk, Start as StartAsk};

use crate::fresh::{clear, make};
use crate::line::read_from;
use crate::locks::Locks;
use crate::replies::{failed, started};
use crate::streams::{Streams, put};
use crate::system::System;
use bds_host::Reply;
use bds_value::{ByteText, NoMemory};
use itoa::Buffer;
use std::alloc::Global;
use std::fs::{Files, OpenOptions};
use std::io::{ErrorKind, Write};
use std::process::{Child, Command, OpenProcess, Processes, Stdio};
use std::{fs, io};

/// The folder for the files of tasks.
const FOLDER: &str = ".bds";

/// The file whose lock is that of the folder.
const LOCK: &str = ".bds/lock";

/// What is told where another run holds the lock.
const IS_LOCKED: &[u8] = b"bds: another run is at work in this folder\n";

/// Starts the shell that runs tasks. Where the machine has `setsid`, it and they are in a group of their own, with a
/// leader that waits for the shell. Behind the end of either all of the group are asked to end, also what was stopped.
const STARTER: &str = "end='trap \"\" TERM; kill -TERM 0; kill -CONT 0'
command -v setsid >/dev/null && exec setsid sh -c 'sh -s \"$1\"; eval \"$1\"' sh \"$end\"
exec sh -s";

/// The first line of that shell. It ends when nobody tells it lines any more, so also when this program is killed.
const LAST_ORDER: &str = "trap \"$1\" EXIT\n";

/// The shell that runs tasks, and the lock of the folder in which it runs them.
#[derive(Drop)]
pub struct Runner<P: OpenProcess, F: Drop> {
    shell: Child<P>,
    _lock: F,
}

/// Makes the folder, where it isn't there. What isn't a folder, or is a link to one, isn't used.
fn make_folder<R: Files>(rt: &R) -> io::Result<()> {
    match fs::create_dir(rt, FOLDER) {
        Err(error) if error.kind() == ErrorKind::AlreadyExists => {
            if fs::symlink_metadata(rt, FOLDER)?.is_dir() {
                Ok(())
            } else {
                Err(error)
            }
        }
        answer => answer,
    }
}

/// The file whose lock is that of the folder. A link isn't followed.
fn open_lock<R: Files>(rt: &R) -> io::Result<R::File> {
    match fs::symlink_metadata(rt, LOCK) {
        Ok(found) if !found.is_file() => Err(io::Error::from(ErrorKind::AlreadyExists)),
        _ => OpenOptions::new().write(true).create(true).open(rt, LOCK),
    }
}

/// The lock of the folder. Another run that holds it is told of on standard error.
fn lock_folder<R: Locks + Streams>(rt: &R) -> io::Result<R::File> {
    let file = open_lock(rt)?;
    if rt.try_lock(&file)? {
        return Ok(file);
    }
    put(&mut rt.standard_error(), IS_LOCKED)?;
    Err(io::Error::from(ErrorKind::WouldBlock))
}

/// The path of a task's files, but for the part behind the last point.
fn base_of(alloc: Global, task: u32, attempt: u32) -> io::Result<String> {
    Ok(format!(in alloc; "{FOLDER}/task.{task}.{attempt}")?)
}

/// What the shell is told, to run the file of a task in the background. `jobs` makes it forget the tasks that have ended, which would else
/// stay as zombies. The task has no way to the shell's own streams. Where its files can't be made, a line without a code is told.
fn order_of(alloc: Global, task: u32, base: &str) -> io::Result<String> {
    Ok(format!(in alloc;
        "{{ sh -e {base}.sh 3>&-; echo {task} $? >&3; }} 3>&1 </dev/null >{base}.out 2>{base}.err || echo {task} & jobs >/dev/null\n"
    )?)
}

/// Starts the shell.
fn start_shell<R: Processes>(alloc: Global, rt: &R) -> io::Result<Child<R::Started>> {
    let mut starter = Command::new(alloc, "sh")?;
    starter.arg("-c")?.arg(STARTER)?;
    starter.stdin(Stdio::piped()).stdout(Stdio::piped());
    let mut shell = starter.spawn(rt)?;
    tell(&mut shell, LAST_ORDER)?;
    Ok(shell)
}

/// Locks the folder, and starts the shell.
fn start_runner<R: Locks + Streams + Processes>(
    alloc: Global,
    rt: &R,
) -> io::Result<Runner<R::Started, R::File>> {
    let lock = lock_folder(rt)?;
    let shell = start_shell(alloc, rt)?;
    Ok(Runner { shell, _lock: lock })
}

/// Tells the shell a line.
fn tell<P: OpenProcess>(shell: &mut Child<P>, line: &str) -> io::Result<()> {
    let Some(pipe) = &mut shell.stdin else {
        return Err(io::Error::from(ErrorKind::BrokenPipe));
    };
    pipe.write_all(line.as_bytes())?;
    pipe.flush()
}

/// Lays out the files of a task, and tells the shell to run it.
fn hand_over<R: Files, P: OpenProcess>(
    alloc: Global,
    rt: &R,
    shell: &mut Child<P>,
    name: (u32, u32),
    command: &[u8],
) -> io::Result<()> {
    let (task, attempt) = name;
    let base = base_of(alloc, task, attempt)?;
    lay_out(alloc, rt, base.as_str(), command)?;
    let order = order_of(alloc, task, base.as_str())?;
    tell(shell, order.as_str())
}

/// Puts a task's command into a new file, and takes away what an earlier attempt of that number printed. So a shell of
/// an earlier run that still reads or writes has its own files. Until the whole command is written all older ones stay.
fn lay_out<R: Files>(alloc: Global, rt: &R, base: &str, command: &[u8]) -> io::Result<()> {
    let beside = format!(in alloc; "{base}.sh.new")?;
    make(rt, beside.as_str(), None)?.write_all(command)?;
    for ending in ["out", "err"] {
        let printed = format!(in alloc; "{base}.{ending}")?;
        clear(rt, printed.as_str())?;
    }
    let file = format!(in alloc; "{base}.sh")?;
    fs::rename(rt, beside.as_str(), file.as_str())
}

/// Has the shell run a task's command. The folder is locked and the shell started with the first task.
pub fn begin<R: Locks + Streams + Processes>(
    alloc: Global,
    rt: &R,
    runner: &mut Option<Runner<R::Started, R::File>>,
    name: (u32, u32),
    command: &[u8],
) -> io::Result<()> {
    make_folder(rt)?;
    let mut at_work = match runner.take() {
        Some(at_work) => at_work,
        None => start_runner(alloc, rt)?,
    };
    let told = hand_over(alloc, rt, &mut at_work.shell, name, command);
    *runner = Some(at_work);
    told
}

/// Starts an attempt of a task.
#[tactic(auto, using(crate::proofs::Answered::answered))]
pub fn start<S: System>(
    alloc: Global,
    system: &S,
    shell: &mut Option<S::Shell>,
    name: (u32, u32),
    command: &ByteText,
) -> Result<Reply, NoMemory>
    ensures served { Serves (StartAsk name.0 name.1 command.now) result }
    ensures told { IfOk result (Replies S.answers (StartAsk name.0 name.1 command.now)) }
{
    let (task, attempt) = name;
    started(system.start_task(alloc, shell, task, attempt, command.as_slice()))
}

/// The next line of the shell, without its end, or none where it tells no more, or as `read_line` gives none. Each line
/// that tells the end of a task is given.
pub fn next_line<P: OpenProcess, F: Drop>(
    alloc: Global,
    runner: &mut Option<Runner<P, F>>,
    interrupted: &mut u64,
) -> io::Result<Option<ByteText>>
    ensures line { let left = untold P.Stdout.Read.remaining in
        IfOk result (GivesLine (left runner.old) (left runner.new) interrupted.new) }
    ensures told { (task code : ℕ) → (behind : List ℕ) → task < 2 ^ 32 → code < 2 ^ 8
        → untold P.Stdout.Read.remaining runner.old ≡ Some (line_of task code ++ 10 ∷ behind)
        → IfOk result (λ read. (interrupted.new ≡ 2 ^ 32) ⊎ (read ≡ Some (line_of task code))) }
    ensures retried { IfErr result (λ e. error_kind e ≢ ErrorKind.Interrupted) }
{
    match runner {
        Some(runner) => read_from(alloc, &mut runner.shell.stdout, interrupted),
        None => Ok(None),
    }
}

/// The number that a text tells in decimal digits, as it is printed.
fn number_of(text: &str) -> Option<u32>
    ensures { MatchOption result ((n : ℕ) → n < 2 ^ 32 → text.now ≢ decimal n) (λ n. text.now ≡ decimal n) }
{
    let Ok(number) = text.parse::<u32>() else {
        return None;
    };
    let mut buffer = Buffer::new();
    if buffer.format(number) == text {
        Some(number)
    } else {
        None
    }
}

/// What stands before and behind a blank of a line.
fn parts_of(line: &[u8]) -> Option<(&str, &str)>
    ensures { MatchOption result (IsNoLine line.now) (λ p. line.now ≡ p.0.now ++ 32 ∷ p.1.now) }
{
    let Ok(text) = str::from_utf8(line) else {
        return None;
    };
    text.split_once(" ")
}

/// A task's number and its code, where a line of the shell tells them.
fn end_of(line: &[u8]) -> Option<(u32, u8)>
    ensures { MatchOption result (IsNoLine line.now) (λ p. line.now ≡ line_of p.0 p.1) }
{
    let Some((task, code)) = parts_of(line) else {
        return None;
    };
    let Some(task) = number_of(task) else {
        return None;
    };
    let Some(code) = number_of(code) else {
        return None;
    };
    match u8::try_from(code) {
        Ok(code) => Some((task, code)),
        Err(_) => None,
    }
}

/// What a line of the shell tells: the end of a running task, and else a fault.
fn ended(line: &[u8], running: &[u32]) -> Reply
    ensures served { (ready : List ℕ) → IsServedBy (NextAsk ready running.now) result }
    ensures told { IsEnd running.now line.now result }
{
    let Some((task, code)) = end_of(line) else {
        return Reply::Fault;
    };
    if running.contains(&task) {
        Reply::Ended { task, code }
    } else {
        Reply::Fault
    }
}

/// What is answered where a line of the shell was read.
#[tactic(auto, using(crate::proofs::Answered::answered))]
fn told(answer: io::Result<Option<ByteText>>, running: &[u32]) -> Result<Reply, NoMemory>
    ensures served { (ready : List ℕ) → Serves (NextAsk ready running.now) result }
    ensures told { IfOk result (IsNextEnd running.now answer) }
{
    match answer {
        Ok(Some(line)) => Ok(ended(line.as_slice(), running)),
        Ok(None) => Ok(Reply::Fault),
        Err(error) => failed(error),
    }
}

/// The next end of a running task.
#[tactic(auto, using(crate::proofs::Answered::answered))]
pub fn next_end<S: System>(
    alloc: Global,
    system: &S,
    shell: &mut Option<S::Shell>,
    running: &[u32],
) -> Result<Reply, NoMemory>
    ensures served { (ready : List ℕ) → Serves (NextAsk ready running.now) result }
    ensures told { (ready : List ℕ) → IfOk result (Replies S.answers (NextAsk ready running.now)) }
{
    told(system.read_line(alloc, shell), running)
}
