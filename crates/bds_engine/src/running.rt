//! The run of a state.
ghost use Rattle.std.specs.Prelude.{◌≡◌, ◌≤◌, ◌-◌, ℕ, None};
ghost use Rattle.bds_sim.specs.MachineRun.{State as Configuration};
ghost use Rattle.bds_value.specs.declared.TheConstants.{MAX_PROCESSORS};
ghost use Rattle.bds_engine_parts.specs.Run.{Runs};
ghost use Rattle.bds_engine_parts.specs.declared.stop.RunStop.TheVariants as run_stop;
ghost use Rattle.bds_engine_stages.specs.Steps.{IsAt, StepsWithin, end_of};
ghost use Rattle.bds_engine_stages.specs.declared.stop.Halt.TheVariants as halts;

use crate::turns::turn;
use bds_engine_parts::RunStop;
use bds_engine_stages::{Halt, Stage, at_point, saving, stopping, tell_device};
use bds_host::Host;
use bds_state::State;
use std::alloc::Global;
use std::mem::forget;

/// What the run does next, where it hasn't ended.
fn step<H: Host>(
    alloc: Global,
    state: &mut State,
    cpus: u32,
    left: &mut u64,
    stage: Stage,
    host: &mut H,
) -> Result<Stage, Halt>
    requires { end_of stage ≡ None }
    ensures { (budget used : ℕ) (d : Configuration) → used ≤ budget → left.old ≡ budget - used → IsAt state.old cpus budget used stage d
        → StepsWithin state.old cpus budget d (H.log host.old) (H.log host.new) state.new left.new result }
{
    match stage {
        Stage::Point => at_point(alloc, state, cpus, host),
        Stage::Turn(k) => turn(alloc, state, k, left, host),
        Stage::Stopping(cause) => stopping(alloc, state, cause, host),
        Stage::Saving => saving(alloc, state, host),
        Stage::Faulted => tell_device(alloc, host),
        Stage::Told => unreachable!(),
        Stage::Done(_) => unreachable!(),
    }
}

/// How the run has ended, if it has.
fn end_of(stage: &Stage) -> Option<Result<u8, RunStop>>
    ensures { result ≡ end_of stage.now }
{
    match stage {
        Stage::Done(status) => Some(Ok(*status)),
        Stage::Told => Some(Err(RunStop::Device)),
        Stage::Point => None,
        Stage::Turn(_) => None,
        Stage::Stopping(_) => None,
        Stage::Saving => None,
        Stage::Faulted => None,
    }
}

fn stop_of(halt: Halt) -> RunStop
    ensures spent { halt ≡ halts.Spent → result ≡ run_stop.Ticks }
    ensures none { halt ≡ halts.NoMemory → result ≡ run_stop.NoMemory }
{
    match halt {
        Halt::Spent => RunStop::Ticks,
        Halt::NoMemory => RunStop::NoMemory,
    }
}

/// Runs a state that its caller keeps to the end of its run.
fn run_to_end<H: Host>(
    alloc: Global,
    state: &mut State,
    cpus: u32,
    ticks: u64,
    host: &mut H,
) -> Result<u8, RunStop>
    ensures { Runs state.old cpus ticks (H.log host.old) (H.log host.new) result }
{
    state.is_valid();
    let mut left = ticks;
    let mut stage = Stage::Point;
    loop {
        if let Some(end) = end_of(&stage) {
            return end;
        }
        stage = match step(alloc, state, cpus, &mut left, stage, host) {
            Ok(next) => next,
            Err(halt) => return Err(stop_of(halt)),
        };
    }
}

/// Runs a state to the end of its run, with so many processors, from a point on. All that is asked and
/// answered is the run of its machine, which may use so many ticks. The state stays in memory until the
/// process ends.
pub fn run_state<H: Host>(
    alloc: Global,
    state: State,
    cpus: u32,
    ticks: u64,
    host: &mut H,
) -> Result<u8, RunStop>
    requires { (1 ≤ cpus) × (cpus ≤ MAX_PROCESSORS) }
    ensures { Runs state cpus ticks (H.log host.old) (H.log host.new) result }
{
    let mut state = state;
    let end = run_to_end(alloc, &mut state, cpus, ticks, host);
    // The process gives all back at once, where letting go of a value takes as long as it has parts.
    forget(state);
    end
}
