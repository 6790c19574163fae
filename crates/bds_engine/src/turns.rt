//! The turn of a thread.
ghost use Rattle.std.specs.Prelude.{◌≡◌, ◌≤◌, ◌-◌, [], ℕ, Some, slice_get, IfOk};
ghost use Rattle.bds_host.specs.Host.{Log};
ghost use Rattle.bds_schedule.specs.Configuration.{turn_of};
ghost use Rattle.bds_sim.specs.MachineRun.{State as Configuration};
ghost use Rattle.bds_engine_parts.specs.Seen.{seen};
ghost use Rattle.bds_engine_stages.specs.Steps.{IsAt, Leads_to, StepsWithin};
ghost use Rattle.bds_engine_stages.specs.declared.stage.Stage.TheVariants as stage;
ghost use Rattle.bds_engine.specs.Turn.{IsReady, LooksAt, WaitsFor};

use crate::requests::request;
use bds_code::{Status, Thread};
use bds_engine_parts::waited;
use bds_engine_stages::{Cause, Halt, Stage, take, wake};
use bds_host::Host;
use bds_machine::run_to_point;
use bds_state::State;
use bds_tasks::Waited;
use bds_value::NoMemory;
use std::alloc::Global;

/// Runs a thread to a point.
fn run<H: Host>(
    alloc: Global,
    state: &mut State,
    k: u32,
    left: &mut u64,
    host: &mut H,
) -> Result<Stage, Halt>
    requires { IsReady state.old k }
    ensures { (cpus budget used : ℕ) → used ≤ budget → left.old ≡ budget - used
        → StepsWithin state.old cpus budget (seen state.old cpus budget used (turn_of k [])) (H.log host.old) (H.log host.new) state.new left.new result }
{
    state.is_valid();
    let mut thread = take(alloc, state, k);
    match run_to_point(alloc, &state.unit, &mut thread, left) {
        Ok(point) => request(alloc, state, k, thread, point, host),
        Err(_) => Err(Halt::NoMemory),
    }
}

/// What a turn begins with.
#[derive(Drop)]
enum Look {
    Runs,
    Waits(Waited),
    Ended,
}

/// What a thread that is there begins its turn with.
fn looked_at_one(alloc: Global, state: &State, thread: &Thread, k: u32) -> Result<Look, NoMemory>
    requires { slice_get state.now.threads k ≡ Some thread.now }
    ensures { IfOk result (λ look. LooksAt state.now k look) }
{
    state.is_valid();
    match &thread.status {
        Status::Ready => Ok(Look::Runs),
        Status::Waiting(ids) => Ok(Look::Waits(waited(alloc, state, ids.as_slice())?)),
        Status::Ended => Ok(Look::Ended),
    }
}

/// What a turn begins with.
fn looked_at(alloc: Global, state: &State, k: u32) -> Result<Look, NoMemory>
    ensures { IfOk result (λ look. LooksAt state.now k look) }
{
    match state.threads.as_slice().get(k as usize) {
        Some(thread) => looked_at_one(alloc, state, thread, k),
        None => Ok(Look::Ended),
    }
}

/// The turn of a thread that waits.
fn over(alloc: Global, state: &mut State, k: u32, waited: Waited) -> Stage
    requires { WaitsFor state.old k waited }
    ensures { (cpus budget used : ℕ) (log : Log) → Leads_to state.old cpus budget (seen state.old cpus budget used (turn_of k [])) log log state.new used result }
{
    state.is_valid();
    match waited {
        Waited::Not => Stage::Point,
        Waited::Well => wake(alloc, state, k),
        Waited::Failed(n, code) => Stage::Stopping(Cause::TaskFailed(n, code)),
    }
}

/// The turn of thread `k`.
pub fn turn<H: Host>(
    alloc: Global,
    state: &mut State,
    k: u32,
    left: &mut u64,
    host: &mut H,
) -> Result<Stage, Halt>
    ensures { (cpus budget used : ℕ) (d : Configuration) → used ≤ budget → left.old ≡ budget - used → IsAt state.old cpus budget used (stage.Turn k) d
        → StepsWithin state.old cpus budget d (H.log host.old) (H.log host.new) state.new left.new result }
{
    match looked_at(alloc, state, k) {
        Ok(Look::Runs) => run(alloc, state, k, left, host),
        Ok(Look::Waits(waited)) => Ok(over(alloc, state, k, waited)),
        Ok(Look::Ended) => Ok(Stage::Point),
        Err(_) => Err(Halt::NoMemory),
    }
}
