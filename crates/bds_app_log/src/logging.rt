//! A job whose log is written.
ghost use Rattle.std.specs.Prelude.{◌≡◌, true};
ghost use Rattle.std.specs.List.{All};
ghost use Rattle.bds_app_log.specs.Logged.{LogsJob, RecordsJob, Writes, WritesIfLogged, is_logged as is_logged_of};
ghost use Rattle.bds_replay.specs.Log.{IsFieldJob, IsGiven};

use crate::asking::write_file;
use bds_app_run::{Outcome, Stop, run_job, tell_device};
use bds_around::Since;
use bds_engine_parts::ends_have_causes;
use bds_host::{Host, Replies};
use bds_replay::{Job, Log, Recorder, write_log};
use bds_value::{ByteText, NoMemory};
use std::alloc::Global;
use std::marker::Brand;

/// Whether a log is kept where this is the answer.
pub fn is_logged(answer: Outcome) -> bool
    ensures { result ≡ is_logged_of answer }
{
    match answer {
        Outcome::Ended(_) => true,
        Outcome::Refused => true,
        Outcome::BadFile => true,
        Outcome::Device => false,
        Outcome::Words => false,
        Outcome::NoMemory => false,
        Outcome::Ticks => false,
    }
}

/// Does a job over a host that stores its replies.
fn record_job<H: Host, K: Since>(alloc: Global, host: H, job: &Job) -> (Outcome, Replies, H)
    requires job { IsFieldJob job.now }
    requires start { H.log host ≡ K.start }
    ensures { RecordsJob job.now K.start (H.log result.2) result.1 result.0 }
{
    let mut recorder: Recorder<H, K> = Recorder::new(alloc, host);
    let came = run_job(alloc, job, &mut recorder);
    let (replies, host) = recorder.into_parts();
    (came, replies, host)
}

/// Writes a file, and gives the answer behind it: this one, unless it wasn't written.
fn write_bytes<H: Host>(
    alloc: Global,
    host: &mut H,
    path: ByteText,
    bytes: ByteText,
    came: Outcome,
) -> Outcome
    ensures { Writes path bytes came (H.log host.old) (H.log host.new) result }
{
    match write_file(alloc, host, path, bytes) {
        Ok(()) => came,
        Err(Stop::Fault) => tell_device(alloc, host),
        Err(Stop::NoMemory) => Outcome::NoMemory,
    }
}

/// Writes a log, and gives the answer behind it.
fn write<H: Host>(alloc: Global, host: &mut H, path: ByteText, log: &Log, came: Outcome) -> Outcome
    requires job { IsFieldJob log.now.job }
    requires given { All IsGiven log.now.replies }
    requires logged { is_logged_of came ≡ true }
    ensures { WritesIfLogged log.now path came (H.log host.old) (H.log host.new) result }
{
    match write_log(alloc, log) {
        Ok(bytes) => write_bytes(alloc, host, path, bytes, came),
        Err(NoMemory) => Outcome::NoMemory,
    }
}

/// Writes the log of a job where its answer is one of which a log is kept.
fn write_if_logged<H: Host>(
    alloc: Global,
    host: &mut H,
    path: ByteText,
    log: &Log,
    came: Outcome,
) -> Outcome
    requires job { IsFieldJob log.now.job }
    requires given { is_logged_of came ≡ true → All IsGiven log.now.replies }
    ensures { WritesIfLogged log.now path came (H.log host.old) (H.log host.new) result }
{
    if is_logged(came) {
        write(alloc, host, path, log, came)
    } else {
        came
    }
}

/// Does a job, and gives the host back with the answer. Where the job ended, was refused, or its file was bad, a log of
/// it is written to a path behind all that it asked: the job, with the replies that it was given.
pub fn log_job<H: Host>(alloc: Global, host: H, job: Job, path: ByteText) -> (Outcome, H)
    requires { IsFieldJob job }
    ensures { LogsJob job path (H.log host) (H.log result.1) result.0 }
{
    ends_have_causes();
    let (came, replies, host) = record_job::<H, Brand>(alloc, host, &job);
    let mut host = host;
    let log = Log { job, replies };
    let answer = write_if_logged(alloc, &mut host, path, &log, came);
    (answer, host)
}
