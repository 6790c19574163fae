//! A job, with all that is known of it.
ghost use Rattle.std.specs.Prelude.{◌≢◌};
ghost use Rattle.bds_app.specs.Histories.{GoesOnIfFile};
ghost use Rattle.bds_app_farm.specs.Told.{JobIsDetermined};
ghost use Rattle.bds_app_run.specs.Jobs.{DoesJob, SavesIfScript};
ghost use Rattle.bds_app_run.specs.declared.outcome.Outcome.TheVariants.{Words};
ghost use Rattle.bds_replay.specs.Log.{IsFieldJob};

use bds_app_run::{Outcome, files_are_determined, run_job as do_job, scripts_are_determined};
use bds_host::Host;
use bds_replay::Job;
use bds_sim_code::script_histories_go_on;
use std::alloc::Global;

/// Does a job: what the run of its script asks, or of the state in its file, and the end. `determined` says what the
/// log tells of the answer: its cause, that an accepted script and a state of a file go on to their end, that a fault
/// has no other answer than `Device`, but for want of memory, and that a log has one answer; `saves` that what the run
/// of a script saves are checkpoints of its history; `goes_on` that from the checkpoint in a file the history goes on.
pub fn run_job<H: Host>(alloc: Global, job: &Job, host: &mut H) -> Outcome
    requires { IsFieldJob job.now }
    ensures does { DoesJob job.now (H.log host.old) (H.log host.new) result }
    ensures determined { JobIsDetermined job.now (H.log host.old) (H.log host.new) result }
    ensures words { result ≢ Words }
    ensures saves { SavesIfScript job.now (H.log host.old) (H.log host.new) }
    ensures goes_on { GoesOnIfFile job.now (H.log host.old) (H.log host.new) result }
{
    scripts_are_determined();
    files_are_determined();
    script_histories_go_on();
    do_job(alloc, job, host)
}
