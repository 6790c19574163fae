//! The commands on the file of a state.
ghost use Rattle.std.specs.Prelude.{◌≡◌, ◌≤◌, ℕ, List, Err};
ghost use Rattle.bds_value.specs.declared.TheConstants.{MAX_PROCESSORS};
ghost use Rattle.bds_engine_parts.specs.Seen.{revived_state};
ghost use Rattle.bds_app_run.specs.Commands.{DescribesFile, GoesOnTo, ResumesFile, run_outcome};
ghost use Rattle.bds_app_run.specs.Telling.{Prints};
ghost use Rattle.bds_app_run.specs.Ways.{IsOpened, RefusesFile};
ghost use Rattle.bds_host.specs.Host.{Log};
ghost use Rattle.bds_tools.specs.Info.{info_text};

use crate::opening::{FileFault, open_file};
use crate::outcome::Outcome;
use crate::printing::{print, tell, tell_device};
use bds_engine::run_state;
use bds_engine_parts::RunStop;
use bds_host::Host;
use bds_state::State;
use bds_tools::info;
use bds_value::{ByteText, NoMemory};
use std::alloc::Global;

/// Lets each task without a good end wait again.
fn revive(state: &mut State)
    ensures { state.new ≡ revived_state state.old }
{
    state.tasks.revive();
    state.look_at_threads();
}

/// The answer of the end of a run.
fn outcome_of_run(end: Result<u8, RunStop>) -> Outcome
    ensures { result ≡ run_outcome end }
{
    match end {
        Ok(status) => Outcome::Ended(status),
        Err(RunStop::Device) => Outcome::Device,
        Err(RunStop::Ticks) => Outcome::Ticks,
        Err(RunStop::NoMemory) => Outcome::NoMemory,
    }
}

/// Goes on from a state of a file.
fn go_on<H: Host>(alloc: Global, host: &mut H, state: State, cpus: u32, ticks: u64) -> Outcome
    requires { (1 ≤ cpus) × (cpus ≤ MAX_PROCESSORS) }
    ensures { GoesOnTo cpus ticks state (H.log host.old) (H.log host.new) result }
{
    let mut state = state;
    revive(&mut state);
    outcome_of_run(run_state(alloc, state, cpus, ticks, host))
}

/// Tells what a state holds.
fn describe<H: Host>(alloc: Global, host: &mut H, state: State) -> Outcome
    ensures { Prints (info_text state) (H.log host.old) (H.log host.new) result }
{
    match info(alloc, &state) {
        Ok(text) => print(alloc, host, text),
        Err(NoMemory) => Outcome::NoMemory,
    }
}

/// Tells why there is no state of a file.
fn refuse_file<H: Host>(alloc: Global, host: &mut H, fault: FileFault) -> Outcome
    ensures { (path : List ℕ) (before : Log) → IsOpened path before (H.log host.old) (Err fault) → RefusesFile path before (H.log host.new) result }
{
    match fault {
        FileFault::HoldsNone(fault) => tell(alloc, host, fault, Outcome::BadFile),
        FileFault::Unread => tell_device(alloc, host),
        FileFault::NoMemory => Outcome::NoMemory,
    }
}

/// Goes on from the state that the file of a path holds, with so many processors and ticks: what the run asks from there on, and
/// its end. A file that is missing or holds none is told.
pub fn resume_file<H: Host>(
    alloc: Global,
    host: &mut H,
    path: ByteText,
    cpus: u32,
    ticks: u64,
) -> Outcome
    requires { (1 ≤ cpus) × (cpus ≤ MAX_PROCESSORS) }
    ensures { ResumesFile cpus ticks path (H.log host.old) (H.log host.new) result }
{
    match open_file(alloc, host, path) {
        Ok(state) => go_on(alloc, host, state, cpus, ticks),
        Err(fault) => refuse_file(alloc, host, fault),
    }
}

/// Prints what the state in the file of a path holds. A file that is missing or holds none is told.
pub fn describe_file<H: Host>(alloc: Global, host: &mut H, path: ByteText) -> Outcome
    ensures { DescribesFile path (H.log host.old) (H.log host.new) result }
{
    match open_file(alloc, host, path) {
        Ok(state) => describe(alloc, host, state),
        Err(fault) => refuse_file(alloc, host, fault),
    }
}
