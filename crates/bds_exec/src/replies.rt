//! Which reply each answer of the system gives.
ghost use Rattle.std.specs.Prelude.{◌≡◌, true, None, ℕ, List, IfOk, IfSome, FitsSigned};
ghost use Rattle.std.specs.Int.{w64};
ghost use Rattle.std.specs.IoError.{error_kind};
ghost use Rattle.bds_host.specs.declared.asks.Ask.{Ask};
ghost use Rattle.bds_host.specs.declared.asks.Ask.TheVariants.{Read, Remove, Stamp as StampAsk, Sys, Start};
ghost use Rattle.bds_host.specs.declared.asks.Reply.TheVariants.{Done};
ghost use Rattle.bds_host.specs.Asks.{answers};
ghost use Rattle.bds_exec.specs.Serving.{IsServedBy, Serves};
ghost use Rattle.bds_exec.specs.Replies.{GivesReply, IsStampAt, IsStamped, failure, failure_or, done as done_of, removed as removed_of, bytes_read as bytes_read_of, ran as ran_of, started as started_of, code_of as code_in, time_at};

use bds_host::Reply;
use bds_value::{ByteText, NoMemory};
use std::io;
use std::io::ErrorKind;

/// What a failed call of the system is answered with.
#[tactic(auto, using(crate::proofs::Failures::failures))]
pub fn failed(error: io::Error) -> Result<Reply, NoMemory>
    ensures gives { GivesReply (failure (error_kind error)) result }
    ensures served { (ask : Ask) → Serves ask result }
{
    match error.kind() {
        ErrorKind::OutOfMemory => Err(NoMemory),
        _ => Ok(Reply::Fault),
    }
}

/// The same where what isn't found has a reply of its own.
#[tactic(auto, using(crate::proofs::Failures::failures))]
pub fn failed_or(missing: Reply, error: io::Error) -> Result<Reply, NoMemory>
    ensures gives { GivesReply (failure_or missing (error_kind error)) result }
    ensures served { (ask : Ask) → IsServedBy ask missing → Serves ask result }
{
    match error.kind() {
        ErrorKind::NotFound => Ok(missing),
        _ => failed(error),
    }
}

/// What is answered where something was written or printed.
pub fn done(answer: io::Result<()>) -> Result<Reply, NoMemory>
    ensures gives { GivesReply (done_of answer) result }
    ensures served { (ask : Ask) → answers ask Done ≡ true → Serves ask result }
{
    match answer {
        Ok(()) => Ok(Reply::Done),
        Err(error) => failed(error),
    }
}

/// What is answered where a file was removed.
pub fn removed(answer: io::Result<()>) -> Result<Reply, NoMemory>
    ensures gives { GivesReply (removed_of answer) result }
    ensures served { (path : List ℕ) → Serves (Remove path) result }
{
    match answer {
        Ok(()) => Ok(Reply::Done),
        Err(error) => failed_or(Reply::Missing, error),
    }
}

/// What is answered where a file was read.
pub fn bytes_read(answer: io::Result<Option<ByteText>>) -> Result<Reply, NoMemory>
    ensures gives { GivesReply (bytes_read_of answer) result }
    ensures served { (path : List ℕ) → Serves (Read path) result }
{
    match answer {
        Ok(Some(bytes)) => Ok(Reply::Bytes(bytes)),
        Ok(None) => Ok(Reply::Fault),
        Err(error) => failed_or(Reply::Missing, error),
    }
}

/// A time in nanoseconds, where 64 bits hold it.
fn time_of(seconds: i64, nanoseconds: i64) -> Option<i64>
    ensures some { IfSome result (λ time. time ≡ time_at seconds nanoseconds) }
    ensures none { result ≡ None → FitsSigned w64 (time_at seconds nanoseconds) → ⊥ }
{
    let whole = i128::from(seconds) * 1_000_000_000 + i128::from(nanoseconds);
    i64::try_from(whole).ok()
}

/// The stamp of a file that is there.
fn stamp_at(size: u64, seconds: i64, nanoseconds: i64) -> Reply
    ensures stamped { IsStampAt size (time_at seconds nanoseconds) result }
    ensures served { (path : List ℕ) → IsServedBy (StampAsk path) result }
{
    match time_of(seconds, nanoseconds) {
        Some(time) => Reply::Stamp {
            there: true,
            size,
            time,
        },
        None => Reply::Fault,
    }
}

/// What is answered where the size, the seconds and the nanoseconds of a file were asked.
#[tactic(auto, using(crate::proofs::Answered::answered))]
pub fn stamped(answer: io::Result<(u64, i64, i64)>) -> Result<Reply, NoMemory>
    ensures stamped { IfOk result (IsStamped answer) }
    ensures served { (path : List ℕ) → Serves (StampAsk path) result }
{
    match answer {
        Ok((size, seconds, nanoseconds)) => Ok(stamp_at(size, seconds, nanoseconds)),
        Err(error) => failed_or(
            Reply::Stamp {
                there: false,
                size: 0,
                time: 0,
            },
            error,
        ),
    }
}

/// The code of a command that ended. One that the system doesn't give counts as 255.
fn code_of(code: Option<i32>) -> u8
    ensures { result ≡ code_in code }
{
    match code {
        Some(code) => u8::try_from(code).unwrap_or(255),
        None => 255,
    }
}

/// What is answered where a command was run to its end.
pub fn ran(answer: io::Result<Option<(Option<i32>, ByteText)>>) -> Result<Reply, NoMemory>
    ensures gives { GivesReply (ran_of answer) result }
    ensures served { (command : List ℕ) → Serves (Sys command) result }
{
    match answer {
        Ok(Some((code, out))) => Ok(Reply::SysDone {
            code: code_of(code),
            out,
        }),
        Ok(None) => Ok(Reply::Fault),
        Err(error) => failed(error),
    }
}

/// What is answered where a task was started.
pub fn started(answer: io::Result<()>) -> Result<Reply, NoMemory>
    ensures gives { GivesReply (started_of answer) result }
    ensures served { (task attempt : ℕ) → (command : List ℕ) → Serves (Start task attempt command) result }
{
    match answer {
        Ok(()) => Ok(Reply::Started),
        Err(error) => failed(error),
    }
}
