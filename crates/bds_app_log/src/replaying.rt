//! The replay of a log.
ghost use Rattle.std.specs.Prelude.{◌≡◌, ◌≢◌, [], List, ℕ, true, false, Err};
ghost use Rattle.bds_app_run.specs.Asks.{IsRead};
ghost use Rattle.bds_app_log.specs.Asking.{is_want as is_want_of};
ghost use Rattle.bds_app_log.specs.Logged.{is_logged as is_logged_of};
ghost use Rattle.bds_app_log.specs.Replays.{IsDoneAgain, ReplaysJob, ReplaysLog};
ghost use Rattle.bds_app_log.specs.Same.{IsReplayedTheSame};
ghost use Rattle.bds_app_run.specs.declared.outcome.Outcome.TheVariants.{Words};
ghost use Rattle.bds_host.specs.Host.{Answered, Log as Pairs};
ghost use Rattle.bds_host.specs.declared.asks.Ask.TheVariants.{Read};
ghost use Rattle.bds_host.specs.declared.asks.Reply.{Reply as AReply};
ghost use Rattle.bds_host.specs.declared.asks.Reply.TheVariants.{Bytes};
ghost use Rattle.bds_replay.specs.Loading.{GivesLog, IsLogOf};
ghost use Rattle.bds_replay.specs.Log.{IsFieldJob};
ghost use Rattle.bds_replay.specs.declared.log.Log.{Log as ALog};

use crate::printing::print_again;
use bds_app_run::{Outcome, Stop, read_file, run_job, tell, tell_device};
use bds_ckpt::states_are_read_back;
use bds_engine_parts::ends_have_causes;
use bds_front::job_has_one_step;
use bds_host::{Fault, Host, Replies, Trace};
use bds_replay::{Given, Job, Log, LogFault, Replayed, read_log};
use bds_value::ByteText;
use std::alloc::Global;
use std::marker::Brand;

/// Prints again what was printed where all replies were used, and else tells that the file is no log of that.
fn print_if_used_up<H: Host>(
    alloc: Global,
    host: &mut H,
    path: ByteText,
    inner: &Trace,
    is_used_up: bool,
    came: Outcome,
) -> Outcome
    requires { is_logged_of came ≡ true }
    ensures { (l : ALog) (left : List AReply) → IsDoneAgain l inner.now left came → (is_used_up ≡ true → left ≡ [])
        → (left ≡ [] → is_used_up ≡ true)
        → ReplaysJob path l (H.log host.old) (H.log host.new) result }
{
    if is_used_up {
        print_again(alloc, host, inner.as_slice(), came)
    } else {
        tell(alloc, host, Fault::NotLoadable(path), Outcome::BadFile)
    }
}

/// What a replay comes to where the job has come to this answer again.
fn conclude<H: Host>(
    alloc: Global,
    host: &mut H,
    path: ByteText,
    inner: &Trace,
    is_used_up: bool,
    came: Outcome,
) -> Outcome
    requires { came ≢ Words }
    ensures { (l : ALog) (left : List AReply) → IsDoneAgain l inner.now left came → (is_used_up ≡ true → left ≡ [])
        → (left ≡ [] → is_used_up ≡ true)
        → ReplaysJob path l (H.log host.old) (H.log host.new) result }
{
    match came {
        Outcome::Ended(_) => print_if_used_up(alloc, host, path, inner, is_used_up, came),
        Outcome::Refused => print_if_used_up(alloc, host, path, inner, is_used_up, came),
        Outcome::BadFile => print_if_used_up(alloc, host, path, inner, is_used_up, came),
        Outcome::Device => tell(alloc, host, Fault::NotLoadable(path), Outcome::BadFile),
        Outcome::Ticks => tell(alloc, host, Fault::NotLoadable(path), Outcome::BadFile),
        Outcome::NoMemory => Outcome::NoMemory,
        Outcome::Words => unreachable!(),
    }
}

/// Does a job again over given replies, and tells what came of it.
fn replay_job<H: Host, K: Given>(
    alloc: Global,
    host: &mut H,
    path: ByteText,
    job: &Job,
    replies: Replies,
) -> Outcome
    requires job { IsFieldJob job.now }
    requires given { replies ≡ K.given }
    ensures { ReplaysJob path (record { job = job.now; replies = replies }) (H.log host.old) (H.log host.new) result }
{
    let mut again: Replayed<K> = Replayed::new(alloc, replies);
    let came = run_job(alloc, job, &mut again);
    again.is_replayed();
    conclude(alloc, host, path, again.trace(), again.is_used_up(), came)
}

/// Does the job of a log again over its replies.
fn replay<H: Host>(alloc: Global, host: &mut H, path: ByteText, log: Log) -> Outcome
    requires { IsFieldJob log.job }
    ensures { ReplaysJob path log (H.log host.old) (H.log host.new) result }
{
    let Log { job, replies } = log;
    replay_job::<H, Brand>(alloc, host, path, &job, replies)
}

/// Bytes weren't read for want of memory, and not since they are those of no log.
fn is_want(fault: LogFault) -> bool
    ensures { result ≡ is_want_of fault }
{
    match fault {
        LogFault::NoMemory => true,
        LogFault::Short(_) => false,
        LogFault::BadTag(_, _) => false,
        LogFault::BadNumber(_, _) => false,
        LogFault::Extra(_) => false,
    }
}

/// Tells that bytes are those of no log, unless memory was wanting to read them.
fn refuse_log<H: Host>(alloc: Global, host: &mut H, path: ByteText, fault: LogFault) -> Outcome
    ensures { (before : Pairs) (bytes : List ℕ) → Answered before (H.log host.old) (Read path) (Bytes bytes)
        → ((l : ALog) → IsLogOf bytes l → GivesLog l (Err fault))
        → ReplaysLog path before (H.log host.new) result }
{
    if is_want(fault) {
        Outcome::NoMemory
    } else {
        tell(alloc, host, Fault::NotLoadable(path), Outcome::BadFile)
    }
}

/// Replays the bytes of a file.
fn replay_bytes<H: Host>(alloc: Global, host: &mut H, path: ByteText, bytes: &ByteText) -> Outcome
    ensures { (before : Pairs) → Answered before (H.log host.old) (Read path) (Bytes bytes.now)
        → ReplaysLog path before (H.log host.new) result }
{
    match read_log(alloc, bytes) {
        Ok(log) => replay(alloc, host, path, log),
        Err(fault) => refuse_log(alloc, host, path, fault),
    }
}

/// What a replay comes to where its file wasn't read.
fn not_read<H: Host>(alloc: Global, host: &mut H, path: ByteText, stop: Stop) -> Outcome
    ensures { (before : Pairs) → IsRead path before (H.log host.old) (Err stop)
        → ReplaysLog path before (H.log host.new) result }
{
    match stop {
        Stop::Fault => tell_device(alloc, host),
        Stop::NoMemory => Outcome::NoMemory,
    }
}

/// Reads a log and replays it.
fn replay_file<H: Host>(alloc: Global, host: &mut H, path: ByteText) -> Outcome
    ensures { ReplaysLog path (H.log host.old) (H.log host.new) result }
{
    match read_file(alloc, host, &path) {
        Ok(Some(bytes)) => replay_bytes(alloc, host, path, &bytes),
        Ok(None) => tell(alloc, host, Fault::Missing(path), Outcome::BadFile),
        Err(stop) => not_read(alloc, host, path, stop),
    }
}

/// Reads a log and does its job again over the replies that it holds, so that of the outside nothing else is asked.
/// Where the job comes again to an end of which a log is kept, by all replies, what it printed is printed, and its
/// answer is the answer; else it is told that the file is no such log. `same` says that what was written of a job is
/// replayed as that job.
pub fn replay_log<H: Host>(alloc: Global, host: &mut H, path: ByteText) -> Outcome
    ensures does { ReplaysLog path (H.log host.old) (H.log host.new) result }
    ensures same { IsReplayedTheSame path (H.log host.old) (H.log host.new) result }
{
    job_has_one_step();
    ends_have_causes();
    states_are_read_back();
    replay_file(alloc, host, path)
}
