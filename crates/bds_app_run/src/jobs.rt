//! Running a job.
ghost use Rattle.std.specs.Prelude.{◌≡◌, ◌≢◌, false};
ghost use Rattle.bds_app_run.specs.Jobs.{DoesJob, SavesIfScript, call_of as call_of_job};
ghost use Rattle.bds_app_run.specs.Commands.{ResumesFile, RunsScript};
ghost use Rattle.bds_app_run.specs.Saves.{SavesCheckpoints};
ghost use Rattle.bds_app_run.specs.declared.outcome.Outcome.TheVariants.{Words};
ghost use Rattle.bds_replay.specs.Log.{IsFieldJob};

use crate::copies::call_of;
use crate::files::resume_file;
use crate::outcome::Outcome;
use crate::scripts::run_script;
use bds_host::Host;
use bds_replay::Job;
use bds_value::{NoMemory, copy_text};
use std::alloc::Global;

/// Runs the script of a job.
fn run<H: Host>(alloc: Global, host: &mut H, job: &Job) -> Outcome
    requires job { IsFieldJob job.now }
    requires script { job.now.resume ≡ false }
    ensures does { RunsScript (call_of_job job.now) (H.log host.old) (H.log host.new) result }
    ensures saves { SavesCheckpoints (call_of_job job.now) (H.log host.old) (H.log host.new) }
{
    match call_of(alloc, job) {
        Ok(call) => run_script(alloc, host, call),
        Err(NoMemory) => Outcome::NoMemory,
    }
}

/// Resumes the file of a job.
fn resume<H: Host>(alloc: Global, host: &mut H, job: &Job) -> Outcome
    requires { IsFieldJob job.now }
    ensures { ResumesFile job.now.cpus job.now.ticks job.now.path (H.log host.old) (H.log host.new) result }
{
    match copy_text(alloc, &job.path) {
        Ok(path) => resume_file(alloc, host, path, job.cpus, job.ticks),
        Err(NoMemory) => Outcome::NoMemory,
    }
}

/// Runs the script of a job, or resumes its file.
fn do_job<H: Host>(alloc: Global, job: &Job, host: &mut H) -> Outcome
    requires { IsFieldJob job.now }
    ensures does { DoesJob job.now (H.log host.old) (H.log host.new) result }
    ensures saves { SavesIfScript job.now (H.log host.old) (H.log host.new) }
{
    if job.resume {
        resume(alloc, host, job)
    } else {
        run(alloc, host, job)
    }
}

/// Does a job: what the run of its script asks, or of the state in its file, and the end. `saves` says that what the
/// run of a script saves are checkpoints of its history, `words` that the answer is never that words weren't
/// understood.
pub fn run_job<H: Host>(alloc: Global, job: &Job, host: &mut H) -> Outcome
    requires { IsFieldJob job.now }
    ensures does { DoesJob job.now (H.log host.old) (H.log host.new) result }
    ensures saves { SavesIfScript job.now (H.log host.old) (H.log host.new) }
    ensures words { result ≢ Words }
{
    do_job(alloc, job, host)
}
