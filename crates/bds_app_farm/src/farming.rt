//! A job over a farm.
ghost use Rattle.std.specs.Prelude.{◌≡◌};
ghost use Rattle.bds_app_farm.specs.Farmed.{FarmsJob};
ghost use Rattle.bds_app_farm.specs.Told.{DeviceIsTold, EndsAreTold, IsDetermined};
ghost use Rattle.bds_app_run.specs.Complete.{TellsFaults};
ghost use Rattle.bds_app_run.specs.declared.outcome.Outcome.TheVariants.{Device};
ghost use Rattle.bds_replay.specs.Log.{IsFieldJob};

use bds_app_run::{Outcome, files_are_determined, run_job, scripts_are_determined};
use bds_farm::{Farm, Farmed, ends_are_learnt};
use bds_host::Host;
use bds_replay::Job;
use bds_value::ByteText;
use std::alloc::Global;
use std::marker::Brand;

/// Does a job over a farm with the commands that its parameter names.
fn run_over<H: Host, K: Farmed>(
    alloc: Global,
    host: H,
    job: &Job,
    submit: ByteText,
    poll: ByteText,
) -> (Outcome, H)
    requires job { IsFieldJob job.now }
    requires start { H.log host ≡ K.start }
    requires submit { submit ≡ K.submit }
    requires poll { poll ≡ K.poll }
    ensures { FarmsJob job.now K.submit K.poll K.start (H.log result.1) result.0 }
{
    scripts_are_determined();
    files_are_determined();
    let mut farm: Farm<H, K> = Farm::new(alloc, host, submit, poll);
    let came = run_job(alloc, job, &mut farm);
    (came, farm.into_inner())
}

/// Does a job whose tasks one command submits, and of whose ends another tells. `farms` says that what was asked of the
/// farm, with its replies, and the answer are those of the job, and that all that was asked of the host is what the
/// farm asks for it; `determined` what that log says of the answer: its cause, and that an accepted script and a state
/// of a file go on to their end; `told` that each end of a task stands in a line of what the second command printed;
/// `faults` that a fault of the host has no other answer than `Device`, but for want of memory; `device` that the host
/// was told of a fault, whichever it was.
pub fn farm_job<H: Host>(
    alloc: Global,
    host: H,
    job: &Job,
    submit: ByteText,
    poll: ByteText,
) -> (Outcome, H)
    requires { IsFieldJob job.now }
    ensures farms { FarmsJob job.now submit poll (H.log host) (H.log result.1) result.0 }
    ensures determined { IsDetermined job.now submit poll (H.log host) (H.log result.1) result.0 }
    ensures told { EndsAreTold submit poll (H.log host) (H.log result.1) }
    ensures faults { TellsFaults (H.log host) (H.log result.1) result.0 }
    ensures device { result.0 ≡ Device → DeviceIsTold (H.log host) (H.log result.1) }
{
    scripts_are_determined();
    files_are_determined();
    ends_are_learnt();
    run_over::<H, Brand>(alloc, host, job, submit, poll)
}
